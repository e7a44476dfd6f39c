//! The media types of bodies.

ghost use Rattle.std.specs.Prelude.{◌≡◌, ◌≤◌, length};
ghost use Rattle.http_responses.specs.Responses.{media_type};

/// The media type of a body.
#[derive(Clone, Copy)]
pub enum Media {
    /// JSON (RFC 8259).
    Json,
    /// Comma-separated values (RFC 4180).
    Csv,
}

impl Media {
    /// Its name in the field `content-type`.
    pub fn name(self) -> &'static str
        ensures value { result.now ≡ media_type self }
        ensures short { length result.now ≤ 16 }
    {
        match self {
            Media::Json => "application/json",
            Media::Csv => "text/csv",
        }
    }
}
