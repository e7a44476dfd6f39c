//! The responses to messages.

ghost use Rattle.std.specs.Prelude.{◌≡◌, IfOk};
ghost use Rattle.rpc_records.specs.Replies.{http_status_of};
ghost use Rattle.http_responses.specs.Responses.{head_of, good_response, statement_response, refusal_response, wrong_method_response};

use crate::head::{Head, head_of_size};
use crate::media::Media;
use crate::method::Method;
use http::StatusCode;
use rpc_records::{Fault, fault_text};
use std::alloc::Global;
use texts::{Memory, Text};

/// A response to one message.
#[derive(Drop)]
pub struct Response {
    pub status: StatusCode,
    /// The method that the target allows, if another one came.
    pub allow: Option<Method>,
    pub media: Media,
    pub body: Text,
}

impl Response {
    /// Returns a good answer, which is JSON.
    pub fn good(body: Text) -> Response
        ensures { result ≡ good_response body }
    {
        Response {
            status: StatusCode::OK,
            allow: None,
            media: Media::Json,
            body,
        }
    }

    /// Returns a host's statement, which is comma-separated values.
    pub fn statement(body: Text) -> Response
        ensures { result ≡ statement_response body }
    {
        Response {
            status: StatusCode::OK,
            allow: None,
            media: Media::Csv,
            body,
        }
    }

    /// Returns a refusal. [`Response::wrong_method`] names the method that a target allows.
    pub fn refusal(alloc: Global, fault: Fault) -> Result<Response, Memory>
        ensures { IfOk result (λ response. response ≡ refusal_response fault) }
    {
        let body = fault_text(alloc, &fault)?;
        Ok(Response {
            status: status_code(fault),
            allow: None,
            media: Media::Json,
            body,
        })
    }

    /// Returns the refusal of a method, if the target allows another.
    pub fn wrong_method(alloc: Global, allowed: Method) -> Result<Response, Memory>
        ensures { IfOk result (λ response. response ≡ wrong_method_response allowed) }
    {
        let refusal = Response::refusal(alloc, Fault::WrongMethod)?;
        Ok(Response {
            allow: Some(allowed),
            ..refusal
        })
    }

    /// Everything before the body.
    pub fn head(&self) -> Head
        ensures { result.bytes ≡ head_of self.now }
    {
        head_of_size(self.status, self.allow, self.media, self.body.len())
    }
}

fn status_code(fault: Fault) -> StatusCode
    ensures { result ≡ http_status_of fault }
{
    match fault {
        Fault::BadHttp | Fault::BadJson | Fault::BadMember(_) | Fault::BadCsv { .. } => {
            StatusCode::BAD_REQUEST
        }
        Fault::BadAccount | Fault::NotOperator => StatusCode::FORBIDDEN,
        Fault::NoRoute | Fault::NoSuchHost => StatusCode::NOT_FOUND,
        Fault::WrongMethod => StatusCode::METHOD_NOT_ALLOWED,
        Fault::LengthRequired => StatusCode::LENGTH_REQUIRED,
        Fault::TooLarge => StatusCode::PAYLOAD_TOO_LARGE,
        Fault::Unavailable => StatusCode::SERVICE_UNAVAILABLE,
        Fault::BadHost
        | Fault::Stale(_)
        | Fault::Reused(_)
        | Fault::HostsFull
        | Fault::DuplicateName(_)
        | Fault::UnknownReference(_)
        | Fault::BatchReused
        | Fault::TableFull => StatusCode::CONFLICT,
    }
}
