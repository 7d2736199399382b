//! Requests of HTTP/1.x, read from a source of bytes one behind another, in whatever pieces the
//! source gives. docs/http.md says which bytes are a request.
#![tactic(auto)]

mod fault;
mod framing;
mod head;
mod head_end;
mod laws;
mod reading;
mod request;

pub use fault::RequestFault;
pub use laws::{answers_hold_of_all_bytes, requests_are_one};
pub use reading::read_request;
pub use request::Request;
