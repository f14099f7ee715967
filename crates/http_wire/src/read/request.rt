ghost use Rattle.std.specs.Prelude.{◌≡◌, ◌≤◌, length};
ghost use Rattle.http_wire.specs.Layout.{IsLayoutWithin, request_at};

use crate::read::layout::Layout;
use tus_steps::{Request, TusFields};
use tus_text::read_path;

/// The request of a message with this layout in `text`, its head and then its body. It is lent from
/// there, and nothing is copied.
pub fn request_in<'a>(layout: &Layout, text: &'a [u8]) -> Request<'a>
    requires inside { layout.now.head_len ≤ length text.now }
    requires within { IsLayoutWithin layout.now.head_len layout.now }
    ensures { result ≡ request_at layout.now text.now }
{
    let (head, body) = text.split_at(layout.head_len);
    let request = Request {
        method: layout.method,
        path: read_path(layout.target.of(head)),
        fields: TusFields {
            version: layout.fields.version.of(head),
            length: layout.fields.length.of(head),
            defer: layout.fields.defer.of(head),
            offset: layout.fields.offset.of(head),
            metadata: layout.fields.metadata.of(head),
            concat: layout.fields.concat.of(head),
            checksum: layout.fields.checksum.of(head),
            media: layout.fields.media.of(head),
        },
        range: layout.range,
        body,
        given: layout.given as u64,
        more: layout.more as u64,
    };
    match layout.created {
        Some(id) => request.behind(id),
        None => request,
    }
}
