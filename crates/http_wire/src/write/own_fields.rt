//! The fields of a reply of the steps, in their order.
ghost use Rattle.std.specs.Prelude.{◌≡◌, ◌+◌, ◌≤◌, ◌++◌, decimal, length, codes};
ghost use Rattle.http_wire.specs.ReplyText.{own_fields, length_line, declared_line, upload_path, tells_version, extensions_in, max_size_in, algorithms_in, allowed_in, location_in, tells_ranges, range_of, content_range_in, disposition_in, media_in, offset_in, metadata_in, concat_in, expires_in, is_uncached, line, line_if, text_line};
ghost use Rattle.tus_steps.specs.PlacedReply.{reply_in};

use crate::write::file::put_disposition;
use crate::write::page::{FIELDS_MAX, FILE_MAX, LINE_MAX, OPENING_MAX, Page, SHORT_MAX};
use itoa::Buffer;
use tus_steps::{Extent, PathKind, PlacedReply, ReplyKind};
use upload_book::{Moment, Refusal};

/// Puts the fields of a reply of the steps whose body has this type.
#[tactic(auto, unfolding(crate::specs::ReplyText::own_fields))]
pub fn put_own_fields(page: &mut Page, reply: &PlacedReply, media: &[u8])
    requires room { length page.old ≤ OPENING_MAX }
    requires media { media.now ≡ media_in (reply_in reply.now) }
    ensures text { page.new ≡ page.old ++ own_fields (reply_in reply.now) }
    ensures len { length page.new ≤ FIELDS_MAX }
{
    page.put_line_if(tells_version(reply), b"Tus-Version", b"1.0.0");
    page.put_text_line(b"Tus-Extension", extensions_in(reply));
    page.put_number_line(b"Tus-Max-Size", max_size_in(reply));
    page.put_text_line(b"Tus-Checksum-Algorithm", algorithms_in(reply));
    page.put_text_line(b"Allow", allowed_in(reply));
    put_location(page, reply);
    let told = tells_ranges(reply);
    page.put_line_if(told, b"Accept-Ranges", b"bytes");
    put_content_range(page, reply);
    put_disposition_of(page, reply, media);
    put_sniff_line_if(page, told);
    page.put_number_line(b"Upload-Offset", offset_in(reply));
    put_length(page, reply);
    page.put_text_line(b"Upload-Metadata", metadata_in(reply));
    page.put_text_line(b"Upload-Concat", concat_in(reply));
    page.put_moment_line(b"Upload-Expires", expires_in(reply));
    put_cache_line_if(page, is_uncached(reply));
}

// The line that keeps a browser from guessing a type, where the test holds. As it never changes, it is put at once.
#[tactic(auto, unfolding(crate::specs::ReplyText::line, crate::specs::ReplyText::line_if))]
fn put_sniff_line_if(page: &mut Page, test: bool)
    requires { length page.old + 33 ≤ SHORT_MAX }
    ensures text { page.new ≡ page.old ++ line_if test (codes "X-Content-Type-Options") (codes "nosniff") }
    ensures len { length page.new ≤ length page.old + 33 }
{
    if test {
        page.put(b"X-Content-Type-Options: nosniff\r\n");
    }
}

// The line that keeps a reply out of caches, where the test holds. As it never changes, it is put at once.
#[tactic(auto, unfolding(crate::specs::ReplyText::line, crate::specs::ReplyText::line_if))]
fn put_cache_line_if(page: &mut Page, test: bool)
    requires { length page.old + 25 ≤ FIELDS_MAX }
    ensures text { page.new ≡ page.old ++ line_if test (codes "Cache-Control") (codes "no-store") }
    ensures len { length page.new ≤ length page.old + 25 }
{
    if test {
        page.put(b"Cache-Control: no-store\r\n");
    }
}

fn tells_version(reply: &PlacedReply) -> bool
    ensures { result ≡ tells_version (reply_in reply.now) }
{
    matches!(
        &reply.kind,
        ReplyKind::Options { .. }
            | ReplyKind::Refused {
                refusal: Refusal::Version,
                ..
            }
    )
}

// What is served beside the core protocol.
fn extensions_in(reply: &PlacedReply) -> &'static [u8]
    ensures text { result.now ≡ extensions_in (reply_in reply.now) }
    ensures len { length result.now ≤ 97 }
{
    match &reply.kind {
        ReplyKind::Options { .. } =>
            b"creation,creation-defer-length,expiration,termination,concatenation,checksum,creation-with-upload",
        _ => b"",
    }
}

fn max_size_in(reply: &PlacedReply) -> Option<u64>
    ensures { result ≡ max_size_in (reply_in reply.now) }
{
    match &reply.kind {
        ReplyKind::Options { max_size } => Some(*max_size),
        _ => None,
    }
}

// By which algorithms a checksum may be.
fn algorithms_in(reply: &PlacedReply) -> &'static [u8]
    ensures text { result.now ≡ algorithms_in (reply_in reply.now) }
    ensures len { length result.now ≤ 4 }
{
    match &reply.kind {
        ReplyKind::Options { .. } => b"sha1",
        _ => b"",
    }
}

// The methods that the place allows, where the method was refused.
fn allowed_in(reply: &PlacedReply) -> &'static [u8]
    ensures text { result.now ≡ allowed_in (reply_in reply.now) }
    ensures len { length result.now ≤ 40 }
{
    match &reply.kind {
        ReplyKind::Refused {
            refusal: Refusal::Method,
            place: PathKind::Create,
            ..
        } => b"POST, OPTIONS",
        ReplyKind::Refused {
            refusal: Refusal::Method,
            place: PathKind::Upload,
            ..
        } => b"HEAD, GET, PATCH, DELETE, OPTIONS",
        _ => b"",
    }
}

#[tactic(auto, unfolding(crate::specs::ReplyText::text_line))]
fn put_location(page: &mut Page, reply: &PlacedReply)
    requires { length page.old ≤ SHORT_MAX }
    ensures text { page.new ≡ page.old ++ text_line (codes "Location") (location_in (reply_in reply.now)) }
    ensures len { length page.new ≤ length page.old + LINE_MAX }
{
    match &reply.kind {
        ReplyKind::Created { tenant, id, .. } => put_path(page, tenant.as_slice(), *id),
        _ => {}
    }
}

// The line of an upload's path.
#[tactic(auto, unfolding(crate::specs::ReplyText::line))]
fn put_path(page: &mut Page, tenant: &[u8], id: u64)
    requires room { length page.old ≤ SHORT_MAX }
    requires tenant { length tenant.now ≤ 32 }
    ensures text { page.new ≡ page.old ++ line (codes "Location") (upload_path tenant.now id) }
    ensures len { length page.new ≤ length page.old + LINE_MAX }
{
    let mut digits = Buffer::new();
    page.put(b"Location: /files/");
    page.put(tenant);
    page.put(b"/");
    page.put(digits.format(id).as_bytes());
    page.put(b"\r\n");
}

// Whether it tells that ranges are served.
fn tells_ranges(reply: &PlacedReply) -> bool
    ensures { result ≡ tells_ranges (reply_in reply.now) }
{
    matches!(
        &reply.kind,
        ReplyKind::Content {
            extent: Extent::Whole | Extent::Range { .. },
            ..
        }
    )
}

#[tactic(auto, unfolding(crate::specs::ReplyText::text_line))]
fn put_content_range(page: &mut Page, reply: &PlacedReply)
    requires { length page.old ≤ SHORT_MAX }
    ensures text { page.new ≡ page.old ++ text_line (codes "Content-Range") (content_range_in (reply_in reply.now)) }
    ensures len { length page.new ≤ length page.old + LINE_MAX }
{
    match &reply.kind {
        ReplyKind::Content { extent, .. } => put_range(page, *extent),
        ReplyKind::Unsatisfiable { len } => put_none_of(page, *len),
        _ => {}
    }
}

// The line of these bytes of an upload.
#[tactic(auto, unfolding(crate::specs::ReplyText::line, crate::specs::ReplyText::text_line))]
fn put_range(page: &mut Page, extent: Extent)
    requires { length page.old ≤ SHORT_MAX }
    ensures text { page.new ≡ page.old ++ text_line (codes "Content-Range") (range_of extent) }
    ensures len { length page.new ≤ length page.old + LINE_MAX }
{
    let Extent::Range { first, last, len } = extent else {
        return;
    };
    let mut digits = Buffer::new();
    page.put(b"Content-Range: bytes ");
    page.put(digits.format(first).as_bytes());
    page.put(b"-");
    page.put(digits.format(last).as_bytes());
    page.put(b"/");
    page.put(digits.format(len).as_bytes());
    page.put(b"\r\n");
}

// The line of a range that has none of so many bytes.
#[tactic(auto, unfolding(crate::specs::ReplyText::line))]
fn put_none_of(page: &mut Page, len: u64)
    requires { length page.old ≤ SHORT_MAX }
    ensures text { page.new ≡ page.old ++ line (codes "Content-Range") (codes "bytes */" ++ decimal len) }
    ensures len { length page.new ≤ length page.old + LINE_MAX }
{
    let mut digits = Buffer::new();
    page.put(b"Content-Range: bytes */");
    page.put(digits.format(len).as_bytes());
    page.put(b"\r\n");
}

// What a browser is to do with a body of this type, where that is told.
fn put_disposition_of(page: &mut Page, reply: &PlacedReply, media: &[u8])
    requires { length page.old + FILE_MAX ≤ SHORT_MAX }
    ensures text { page.new ≡ page.old ++ text_line (codes "Content-Disposition") (disposition_in media.now (reply_in reply.now)) }
    ensures len { length page.new ≤ length page.old + 817 }
{
    if tells_ranges(reply) {
        put_disposition(page, media, reply.row.metadata.as_slice());
    }
}

fn offset_in(reply: &PlacedReply) -> Option<u64>
    ensures { result ≡ offset_in (reply_in reply.now) }
{
    match &reply.kind {
        ReplyKind::Created { offset, .. } => *offset,
        ReplyKind::Head => Some(reply.row.offset),
        ReplyKind::Patched { offset, .. } => Some(*offset),
        _ => None,
    }
}

#[tactic(auto, unfolding(crate::specs::ReplyText::length_line))]
fn put_length(page: &mut Page, reply: &PlacedReply)
    requires { length page.old ≤ SHORT_MAX }
    ensures text { page.new ≡ page.old ++ length_line (reply_in reply.now) }
    ensures len { length page.new ≤ length page.old + LINE_MAX }
{
    match &reply.kind {
        ReplyKind::Head => put_declared(page, reply.row.declared),
        _ => {}
    }
}

#[tactic(auto, unfolding(crate::specs::ReplyText::declared_line))]
fn put_declared(page: &mut Page, declared: Option<u64>)
    requires { length page.old ≤ SHORT_MAX }
    ensures text { page.new ≡ page.old ++ declared_line declared }
    ensures len { length page.new ≤ length page.old + LINE_MAX }
{
    match declared {
        Some(length) => page.put_number_line(b"Upload-Length", Some(length)),
        None => page.put_line(b"Upload-Defer-Length", b"1"),
    }
}

fn metadata_in(reply: &PlacedReply) -> &[u8]
    ensures text { result.now ≡ metadata_in (reply_in reply.now) }
    ensures len { length result.now ≤ 1024 }
{
    match &reply.kind {
        ReplyKind::Head => reply.row.metadata.as_slice(),
        _ => b"",
    }
}

fn concat_in(reply: &PlacedReply) -> &[u8]
    ensures text { result.now ≡ concat_in (reply_in reply.now) }
    ensures len { length result.now ≤ 2048 }
{
    match &reply.kind {
        ReplyKind::Head => reply.row.concat.as_slice(),
        _ => b"",
    }
}

fn expires_in(reply: &PlacedReply) -> Option<Moment>
    ensures { result ≡ expires_in (reply_in reply.now) }
{
    match &reply.kind {
        ReplyKind::Created { expires, .. } => *expires,
        ReplyKind::Patched { expires, .. } => *expires,
        ReplyKind::Refused { expires, .. } => *expires,
        _ => None,
    }
}

fn is_uncached(reply: &PlacedReply) -> bool
    ensures { result ≡ is_uncached (reply_in reply.now) }
{
    match &reply.kind {
        ReplyKind::Head => true,
        ReplyKind::Refused { head, .. } => *head,
        _ => false,
    }
}
