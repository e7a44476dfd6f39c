//! The answers to HTTP messages, and their bytes.
//!
//! A [`Response`] is a status, the media type of its body, and the body; [`Response::head`] is everything before the
//! body. A status line comes first, then the fields `allow` (if another method came), `content-type`, `content-length`
//! and `connection: close`, and an empty line. Each line ends with CR LF (RFC 9112).
//!
//! An [`Answer`] can be given without memory: [`Answer::Unavailable`] is the response to a lack of it.
#![tactic(auto)]

pub mod answer;
pub mod head;
pub mod media;
pub mod method;
pub mod response;

pub use answer::Answer;
pub use head::Head;
pub use media::Media;
pub use method::Method;
pub use response::Response;
