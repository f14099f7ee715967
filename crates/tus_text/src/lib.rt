//! The texts of a tus request's fields and paths: each reader accepts exactly its grammar and gives
//! its value, and no call takes memory.
#![tactic(auto)]

mod checksum;
mod concat;
mod cut;
mod date;
mod media_type;
mod metadata;
mod number;
mod pair;
mod path;
mod range;
mod tenant;
mod text;

pub use checksum::{Checksum, DIGEST_LEN, read_checksum};
pub use concat::{CONCAT_MAX, Concat, PARTS_MAX, PartPath, Parts, read_concat};
pub use date::{LAST_SECOND, read_expires, write_expires};
pub use media_type::{MEDIA_TYPE_MAX, is_media_type, type_name};
pub use metadata::{METADATA_MAX, check_metadata};
pub use number::read_number;
pub use pair::value_under;
pub use path::{Path, read_path};
pub use range::{ByteRange, read_byte_range};
pub use tenant::is_tenant_name;
pub use text::{TENANT_MAX, Tenant, Text};
