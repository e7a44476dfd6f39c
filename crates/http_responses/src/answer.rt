//! The answer to a message.

ghost use Rattle.std.specs.Prelude.{◌≡◌, IfOk};
ghost use Rattle.http_responses.specs.Responses.{head_of};
ghost use Rattle.http_responses.specs.Answers.{answer_bytes, response_of};

use crate::head::{Head, head_of_size};
use crate::media::Media;
use crate::response::Response;
use http::StatusCode;
use rpc_records::unavailable_text;
use std::alloc::Global;
use texts::Memory;

/// The answer to a message.
#[derive(Drop)]
pub enum Answer {
    /// There is not enough memory or disk, or a size is too large. Its response needs no memory.
    Unavailable,
    Response(Response),
}

impl Answer {
    /// The status code of its response.
    pub fn status(&self) -> u16
        ensures { result ≡ (response_of self.now).status }
    {
        match self {
            Answer::Unavailable => StatusCode::SERVICE_UNAVAILABLE.as_u16(),
            Answer::Response(response) => response.status.as_u16(),
        }
    }

    /// The media type of its response's body.
    pub fn media(&self) -> Media
        ensures { result ≡ (response_of self.now).media }
    {
        match self {
            Answer::Unavailable => Media::Json,
            Answer::Response(response) => response.media,
        }
    }

    /// Everything before the body of its response.
    pub fn head(&self) -> Head
        ensures { result.bytes ≡ head_of (response_of self.now) }
    {
        match self {
            Answer::Unavailable => head_of_size(
                StatusCode::SERVICE_UNAVAILABLE,
                None,
                Media::Json,
                unavailable_text().len(),
            ),
            Answer::Response(response) => response.head(),
        }
    }

    /// The body of its response.
    pub fn body(&self) -> &str
        ensures { result.now ≡ (response_of self.now).body }
    {
        match self {
            Answer::Unavailable => unavailable_text(),
            Answer::Response(response) => response.body.as_str(),
        }
    }

    /// All bytes of its response: its head, and then its body.
    ///
    /// # Errors
    ///
    /// There is no memory.
    #[tactic(auto, unfolding(crate::specs::Responses::response_text))]
    pub fn bytes(&self, alloc: Global) -> Result<Vec<u8>, Memory>
        ensures { IfOk result (λ bytes. bytes.items ≡ answer_bytes self.now) }
    {
        let head = self.head();
        let mut bytes = head.as_str().as_bytes().to_vec(alloc)?;
        bytes.extend_from_slice(self.body().as_bytes())?;
        Ok(bytes)
    }
}
