//! Lists in which the keys of the items ascend. The laws of look-ups and updates are functions with
//! an empty body, whose contract is the law.

ghost use Rattle.std.specs.Prelude.{◌≡◌, ◌<◌, ◌≤◌, List, Contains, Some, None, if◌then◌else◌};
ghost use Rattle.std.specs.Prelude.{vec_len, vec_capacity};
ghost use Rattle.std.specs.List.{insert};
ghost use Rattle.std.specs.Option.{option_map};
ghost use Rattle.std.specs.Ordering.{eq_by_cmp};
ghost use Rattle.std.specs.declared.cmp.Ordering.TheVariants.{Equal};
ghost use Rattle.room_base.specs.Ordered.{Ascends, find_by, put_by, remove_by, update_by};

/// Puts an item into a list that has room for it. Takes no memory.
pub fn insert_in_room<T: Drop>(list: &mut Vec<T>, at: usize, item: T)
    requires place { at ≤ vec_len list.old }
    requires room { vec_len list.old < vec_capacity list.old }
    ensures items { list.new.items ≡ insert list.old.items at item }
    ensures capacity { vec_capacity list.new ≡ vec_capacity list.old }
{
    list.insert(at, item).unwrap()
}

/// What was put is found, and at every other key what was found before.
pub fn put_is_found<T, K: Ord>()
    ensures { (key : T → K) (item : T) (xs : List T) (wanted : K)
        → find_by K.cmp key wanted (put_by K.cmp key item xs)
        ≡ (if eq_by_cmp K.cmp (key item) wanted then Some item else find_by K.cmp key wanted xs) }
{}

/// What was removed isn't found, and at every other key what was found before.
pub fn removed_is_not_found<T, K: Ord>()
    ensures { (key : T → K) (gone : K) (xs : List T) (wanted : K)
        → find_by K.cmp key wanted (remove_by K.cmp key gone xs)
        ≡ (if eq_by_cmp K.cmp gone wanted then None else find_by K.cmp key wanted xs) }
{}

/// After a change that keeps the keys, its item is found changed, and every other as it was.
pub fn change_is_found<T, K: Ord>()
    ensures { (key : T → K) (change : T → T) → ((x : T) → key (change x) ≡ key x)
        → (changed : K) (xs : List T) (wanted : K)
        → find_by K.cmp key wanted (update_by K.cmp key changed change xs)
        ≡ (if eq_by_cmp K.cmp changed wanted then option_map change (find_by K.cmp key wanted xs)
        else find_by K.cmp key wanted xs) }
{}

/// What is found has the key, and is in the list; and what is in the list is found by its key.
pub fn found_is_in_the_list<T, K: Ord>()
    ensures key { (key : T → K) (xs : List T) (wanted : K) (found : T)
        → find_by K.cmp key wanted xs ≡ Some found → K.cmp (key found) wanted ≡ Equal }
    ensures listed { (key : T → K) (xs : List T) (wanted : K) (found : T)
        → find_by K.cmp key wanted xs ≡ Some found → Contains xs found }
    ensures found { (key : T → K) (xs : List T) (x : T) → Ascends K.cmp key xs → Contains xs x
        → find_by K.cmp key (key x) xs ≡ Some x }
{}

/// Lists in which the same is found are equal.
pub fn same_found_is_same_list<T, K: Ord>()
    ensures { (key : T → K) (xs ys : List T) → Ascends K.cmp key xs → Ascends K.cmp key ys
        → ((wanted : K) → find_by K.cmp key wanted xs ≡ find_by K.cmp key wanted ys) → xs ≡ ys }
{}
