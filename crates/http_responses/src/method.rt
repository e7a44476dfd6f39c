//! The methods of routes.

ghost use Rattle.std.specs.Prelude.{◌≡◌, ◌≤◌, length};
ghost use Rattle.http_responses.specs.Methods.{method_name};

/// A method that a route takes.
#[derive(Clone, Copy)]
pub enum Method {
    Get,
    Post,
}

impl Method {
    /// Its name, as a request line has it (RFC 9110, section 9).
    pub fn name(self) -> &'static str
        ensures value { result.now ≡ method_name self }
        ensures short { length result.now ≤ 4 }
    {
        match self {
            Method::Get => "GET",
            Method::Post => "POST",
        }
    }
}
