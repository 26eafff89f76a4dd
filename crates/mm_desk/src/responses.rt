//! The bytes of what a desk answers beside the page's own responses.

ghost use Rattle.std.specs.Prelude.{◌≡◌, IfOk};
ghost use Rattle.mm_desk.specs.Responses.{boxed_of, refusal_of};

use mm_page::found;
use std::alloc::{AllocError, Global};

/// The sender may go on.
pub const GO_ON: &[u8] = b"HTTP/1.1 100 Continue\r\n\r\n";

/// The desk ends.
pub const ENDED: &[u8] = b"HTTP/1.1 200 OK\r\nContent-Length: 0\r\nConnection: close\r\n\r\n";

/// The response of a status that shows nothing: 400, 403, 404, 405, 411, 413 or 415.
pub fn refusal(status: u16) -> &'static str
    ensures { result.now ≡ refusal_of status }
{
    match status {
        400 => "HTTP/1.1 400 Bad Request\r\nContent-Length: 0\r\nConnection: close\r\n\r\n",
        403 => "HTTP/1.1 403 Forbidden\r\nContent-Length: 0\r\nConnection: close\r\n\r\n",
        404 => "HTTP/1.1 404 Not Found\r\nContent-Length: 0\r\nConnection: close\r\n\r\n",
        405 =>
            "HTTP/1.1 405 Method Not Allowed\r\nAllow: GET, POST\r\nContent-Length: 0\r\nConnection: close\r\n\r\n",
        411 => "HTTP/1.1 411 Length Required\r\nContent-Length: 0\r\nConnection: close\r\n\r\n",
        413 => "HTTP/1.1 413 Payload Too Large\r\nContent-Length: 0\r\nConnection: close\r\n\r\n",
        _ =>
            "HTTP/1.1 415 Unsupported Media Type\r\nContent-Length: 0\r\nConnection: close\r\n\r\n",
    }
}

/// 200, with a body that a browser runs nothing of.
pub fn boxed(alloc: Global, content_type: &str, body: &[u8]) -> Result<Vec<u8>, AllocError>
    ensures { IfOk result (λ v. v.items ≡ boxed_of content_type.now body.now) }
{
    let boxed_type = format!(in alloc;
        "{content_type}\r\nContent-Security-Policy: sandbox\r\nX-Content-Type-Options: nosniff"
    )?;
    found(alloc, &boxed_type, body)
}
