//! The status codes of replies.
ghost use Rattle.std.specs.Prelude.{◌≡◌};
ghost use Rattle.wgr_http.specs.StatusCode.{status_number, reason};

/// A status code that a reply may have (RFC 9110 section 15). A number would need a condition, or a
/// reply for numbers that nobody wants.
#[derive(Clone, Copy, Debug, PartialEq, Eq)]
pub enum StatusCode {
    /// 200 OK
    Done,
    /// 400 Bad Request
    BadRequest,
    /// 401 Unauthorized
    Unauthorized,
    /// 403 Forbidden
    Forbidden,
    /// 404 Not Found
    NotFound,
    /// 405 Method Not Allowed
    MethodNotAllowed,
    /// 409 Conflict
    Conflict,
    /// 411 Length Required
    LengthRequired,
    /// 413 Content Too Large
    ContentTooLarge,
    /// 503 Service Unavailable
    ServiceUnavailable,
}

impl StatusCode {
    /// Its three digits.
    pub fn number(self) -> u16
        ensures { result ≡ status_number self }
    {
        match self {
            StatusCode::Done => 200,
            StatusCode::BadRequest => 400,
            StatusCode::Unauthorized => 401,
            StatusCode::Forbidden => 403,
            StatusCode::NotFound => 404,
            StatusCode::MethodNotAllowed => 405,
            StatusCode::Conflict => 409,
            StatusCode::LengthRequired => 411,
            StatusCode::ContentTooLarge => 413,
            StatusCode::ServiceUnavailable => 503,
        }
    }

    /// The words after the number.
    pub fn reason(self) -> &'static str
        ensures { result.now ≡ reason self }
    {
        match self {
            StatusCode::Done => "OK",
            StatusCode::BadRequest => "Bad Request",
            StatusCode::Unauthorized => "Unauthorized",
            StatusCode::Forbidden => "Forbidden",
            StatusCode::NotFound => "Not Found",
            StatusCode::MethodNotAllowed => "Method Not Allowed",
            StatusCode::Conflict => "Conflict",
            StatusCode::LengthRequired => "Length Required",
            StatusCode::ContentTooLarge => "Content Too Large",
            StatusCode::ServiceUnavailable => "Service Unavailable",
        }
    }
}
