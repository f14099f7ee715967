ghost use Rattle.std.specs.Prelude.{◌≡◌, option_copied, IfSome, IsTrue};
ghost use Rattle.upload_book.specs.Lawful.{is_kept_metadata};

use crate::media::is_patch_type;
use tus_text::{Checksum, check_metadata, read_checksum, read_number};

/// A field of a request by its name: how often it stands there, and its value where that is once.
/// A value has no space or tab at its ends.
#[derive(Clone, Copy, Debug)]
pub enum Field<'a> {
    /// No such field.
    Absent,
    /// One, with this value.
    One(&'a [u8]),
    /// Two or more, equal ones included.
    Many,
}

impl<'a> Field<'a> {
    ghost use Rattle.tus_steps.specs.Field.{text_of, is_absent as absent_in, is_just as just_in, number_in, optional_number_in, optional_checksum_in, metadata_in};
    ghost use Rattle.tus_steps.specs.Media.{has_patch_type as patch_type_in};

    /// Whether there is no such field.
    pub fn is_absent(&self) -> bool
        ensures { result ≡ absent_in (text_of self.now) }
    {
        matches!(self, Field::Absent)
    }

    /// Whether there is one such field, with just this value.
    pub fn is_just(&self, value: &[u8]) -> bool
        ensures { result ≡ just_in value.now (text_of self.now) }
    {
        match self {
            Field::One(other) => *other == value,
            _ => false,
        }
    }

    /// The number that the field tells, where there is one such field and its value is a number.
    pub fn number(&self) -> Option<u64>
        ensures { result ≡ number_in (text_of self.now) }
    {
        match self {
            Field::One(value) => read_number(value),
            _ => None,
        }
    }

    /// The number that the field tells if it is there, or None in it where it is not. It is None where the
    /// field is there and tells no number, and where there are two or more.
    pub fn optional_number(&self) -> Option<Option<u64>>
        ensures { result ≡ optional_number_in (text_of self.now) }
    {
        match self {
            Field::Absent => Some(None),
            Field::One(value) => read_number(value).map(Some),
            Field::Many => None,
        }
    }

    /// The checksum that the field tells if it is there, or None in it where it is not. It is None where the
    /// field is there and tells no checksum, and where there are two or more.
    pub fn optional_checksum(&self) -> Option<Option<Checksum>>
        ensures { result ≡ optional_checksum_in (text_of self.now) }
    {
        match self {
            Field::Absent => Some(None),
            Field::One(value) => read_checksum(value).map(Some),
            Field::Many => None,
        }
    }

    /// The metadata that the field tells: empty where there is no such field or it has no value, and else
    /// its value. It is None where that is no value of `Upload-Metadata`, and where there are two or more.
    pub fn metadata(&self) -> Option<&'a [u8]>
        ensures value { option_copied result ≡ metadata_in (text_of self.now) }
        ensures kept { IfSome result (λ value. IsTrue (is_kept_metadata value.now)) }
    {
        match self {
            Field::Absent => Some(b""),
            Field::One(value) if value.is_empty() || check_metadata(value) => Some(value),
            _ => None,
        }
    }

    /// Whether there is one such field, and it names the content type of a PATCH.
    pub fn has_patch_type(&self) -> bool
        ensures { result ≡ patch_type_in (text_of self.now) }
    {
        match self {
            Field::One(value) => is_patch_type(value),
            _ => false,
        }
    }
}
