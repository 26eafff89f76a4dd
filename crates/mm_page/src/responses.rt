//! The bytes of a response.

ghost use Rattle.std.specs.Prelude.{◌≡◌, ◌++◌, codes, IfOk};
ghost use Rattle.http.specs.StatusCode.{code_digits};
ghost use Rattle.mm_page.specs.Responses.{BadRequest, Found, NotAllowed, NotFound, framed, reason, response_of};

use http::{Method, StatusCode};
use std::alloc::{AllocError, Global};

/// The phrase of a status.
fn reason_of(status: StatusCode) -> &'static str
    ensures { result.now ≡ reason status }
{
    status.canonical_reason().unwrap_or("")
}

/// A status line, a header line or none, and the body with what frames it.
fn joined(
    alloc: Global,
    code: &str,
    reason: &str,
    header: &str,
    body: &[u8],
) -> Result<Vec<u8>, AllocError>
    ensures { IfOk result (λ v. v.items ≡ codes "HTTP/1.1 " ++ code.now ++ codes " " ++ reason.now
        ++ codes "\r\n" ++ header.now ++ framed body.now) }
{
    let text = format!(in alloc;
        "HTTP/1.1 {code} {reason}\r\n{header}Content-Length: {}\r\nConnection: close\r\n\r\n",
        body.len()
    )?;
    let mut bytes = text.into_bytes();
    bytes.extend_from_slice(body)?;
    Ok(bytes)
}

fn response(
    alloc: Global,
    status: StatusCode,
    header: &str,
    body: &[u8],
) -> Result<Vec<u8>, AllocError>
    ensures { IfOk result (λ v. v.items ≡ codes "HTTP/1.1 " ++ code_digits status ++ codes " "
        ++ reason status ++ codes "\r\n" ++ header.now ++ framed body.now) }
{
    joined(alloc, status.as_str(), reason_of(status), header, body)
}

/// 200, with a body of a content type.
pub fn found(alloc: Global, content_type: &str, body: &[u8]) -> Result<Vec<u8>, AllocError>
    ensures { IfOk result (λ v. v.items ≡ response_of (Found content_type.now body.now)) }
{
    let header = format!(in alloc; "Content-Type: {content_type}\r\n")?;
    response(alloc, StatusCode::OK, &header, body)
}

/// 400, to an input that has no head.
pub fn bad_request(alloc: Global) -> Result<Vec<u8>, AllocError>
    ensures { IfOk result (λ v. v.items ≡ response_of BadRequest) }
{
    response(alloc, StatusCode::BAD_REQUEST, "", &[])
}

/// 404, where nothing is asked for or nothing stands.
pub fn not_found(alloc: Global) -> Result<Vec<u8>, AllocError>
    ensures { IfOk result (λ v. v.items ≡ response_of NotFound) }
{
    response(alloc, StatusCode::NOT_FOUND, "", &[])
}

/// 405, to every method but GET.
pub fn not_allowed(alloc: Global) -> Result<Vec<u8>, AllocError>
    ensures { IfOk result (λ v. v.items ≡ response_of NotAllowed) }
{
    let allowed = Method::GET;
    let header = format!(in alloc; "Allow: {allowed}\r\n")?;
    response(alloc, StatusCode::METHOD_NOT_ALLOWED, &header, &[])
}
