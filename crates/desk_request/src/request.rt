ghost use Rattle.std.specs.Prelude.{◌≡◌, ◌≤◌, ◌+◌, string_bytes, vec_len};
ghost use Rattle.desk_request.specs.Framing.{max_head, max_body};

use std::marker::Model;

/// What was read of a request.
#[derive(Drop)]
pub struct Request {
    method: String,
    target: String,
    close: bool,
    body: Vec<u8>,
    size: u64,
}

impl Model for Request {
    ghost use Rattle.std.specs.Prelude.{string_bytes};
    ghost use Rattle.desk_request.specs.Requests.{RequestText};

    ghost Value = { RequestText };

    ghost view = { λ request. record {
      method = string_bytes request.method;
      target = string_bytes request.target;
      close = request.close;
      body = request.body.items;
      size = request.size;
    } };

    ghost use Rattle.std.specs.Prelude.{◌≤◌, ◌+◌, vec_len};
    ghost use Rattle.desk_request.specs.Framing.{max_head, max_body};

    ghost invariant = { λ request. (vec_len request.body ≤ max_body)
        × (request.size ≤ max_head + max_body) };
}

impl Request {
    /// `size` is the number of the request's bytes, those of its head too. Takes no memory.
    pub fn new(method: String, target: String, close: bool, body: Vec<u8>, size: u64) -> Request
        requires small { vec_len body ≤ max_body }
        requires limited { size ≤ max_head + max_body }
        ensures { result ≡ record {
          method = string_bytes method;
          target = string_bytes target;
          close = close;
          body = body.items;
          size = size;
        } }
    {
        Request {
            method,
            target,
            close,
            body,
            size,
        }
    }

    pub fn method(&self) -> &str
        ensures { result.now ≡ self.now.method }
    {
        self.method.as_str()
    }

    pub fn target(&self) -> &str
        ensures { result.now ≡ self.now.target }
    {
        self.target.as_str()
    }

    /// The head has a Connection header that says `close`.
    pub fn says_close(&self) -> bool
        ensures { result ≡ self.now.close }
    {
        self.close
    }

    pub fn body(&self) -> &[u8]
        ensures { result.now ≡ self.now.body }
    {
        self.body.as_slice()
    }

    /// How many bytes the request has, with those of its head.
    pub fn size(&self) -> u64
        ensures { result ≡ self.now.size }
    {
        self.size
    }

    /// Takes no memory.
    pub fn into_body(self) -> Vec<u8>
        ensures { result.items ≡ self.body }
    {
        let Request { body, .. } = self;
        body
    }
}
