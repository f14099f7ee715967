ghost use Rattle.std.specs.Prelude.{◌≡◌, ℕ, ◌<◌, ◌≤◌, length, map, option_and_then, option_map, IfSome, IsTrue};
ghost use Rattle.tus_text.specs.Concat.{concat_of};
ghost use Rattle.upload_book.specs.Create.{new_kind};
ghost use Rattle.upload_book.specs.Lawful.{is_kept_metadata, IsConcatText};
ghost use Rattle.tus_steps.specs.Asked.{CanBeAsked, asked_for};
ghost use Rattle.tus_steps.specs.Creation.{length_told, new_upload_in, part_id, new_final_in, concat_creation, creation_in, creation_of, is_with_upload};

use crate::asked::Asked;
use crate::field::Field;
use crate::request::Request;
use crate::requested_change::ChangeOf;
use arrayvec::ArrayVec;
use tus_text::{Concat, PARTS_MAX, PartPath, read_concat};
use upload_book::{Change, FirstChunk, NewFinal, NewUpload, Payload};

/// Room for the parts of a final upload, each by its id, or by none where it is of another tenant.
pub type PartIds = ArrayVec<Option<u64>, PARTS_MAX>;

impl<'a> Request<'a> {
    // The creation that a POST asks for, of the tenant at this place, where its fields tell one. The parts
    // of a final upload are put into `ids`.
    pub(crate) fn creation<'b>(&self, tenant: u8, ids: &'b mut PartIds) -> Option<Asked<'b>>
    where
        'a: 'b,
        ensures value { result ≡ option_map asked_for (creation_in self.now tenant) }
        ensures ready { (tenants : ℕ) → tenant < tenants → IfSome result (CanBeAsked tenants) }
    {
        match self.fields.concat {
            Field::Absent => self.creation_of(tenant, self.new_upload(false, b"")?),
            Field::One(text) => self.concat_creation(tenant, text, ids),
            Field::Many => None,
        }
    }

    // The creation of what this value of Upload-Concat says.
    fn concat_creation<'b>(
        &self,
        tenant: u8,
        text: &'b [u8],
        ids: &'b mut PartIds,
    ) -> Option<Asked<'b>>
    where
        'a: 'b,
        ensures value { result ≡ option_map asked_for (option_and_then (concat_creation self.now tenant text.now) (concat_of text.now)) }
        ensures ready { (tenants : ℕ) → tenant < tenants → IfSome result (CanBeAsked tenants) }
    {
        match read_concat(text)? {
            Concat::Partial => self.creation_of(tenant, self.new_upload(true, b"partial")?),
            Concat::Final(parts) => Some(Asked::change(Change::Concat {
                tenant,
                new: self.new_final(text, parts.as_slice(), ids)?,
            })),
        }
    }

    // The creation of an upload, with its first bytes where the POST carries them.
    fn creation_of<'b>(&self, tenant: u8, new: NewUpload<'b>) -> Option<Asked<'b>>
    where
        'a: 'b,
        requires metadata { IsTrue (is_kept_metadata new.metadata) }
        requires concat { IsConcatText (new_kind new.partial) new.concat }
        ensures value { result ≡ option_map asked_for (creation_of self.now tenant new.entry) }
        ensures ready { (tenants : ℕ) → tenant < tenants → IfSome result (CanBeAsked tenants) }
    {
        if !self.is_with_upload() {
            let first = FirstChunk::none();
            return Some(Asked::change(Change::Create { tenant, new, first }));
        }
        let first = FirstChunk {
            typed: self.fields.media.has_patch_type(),
            check: self.fields.checksum.optional_checksum()?,
            bytes: Payload::new(self.body),
            more: self.more,
        };
        let offset = Some(first.bytes.len() as u64);
        let change = Change::Create { tenant, new, first };
        Some(Asked::Change(ChangeOf { change, offset }))
    }

    // Whether a POST carries the first bytes of its upload: it has a body, or the content type of a PATCH.
    fn is_with_upload(&self) -> bool
        ensures { result ≡ is_with_upload self.now }
    {
        !self.body.is_empty() || self.fields.media.has_patch_type()
    }

    // The upload with this concat text, a part or one of its own, where the other fields tell one.
    fn new_upload<'b>(&self, partial: bool, concat: &'b [u8]) -> Option<NewUpload<'b>>
    where
        'a: 'b,
        ensures value { result ≡ new_upload_in self.now partial concat.now }
        ensures metadata { IfSome result (λ new. IsTrue (is_kept_metadata new.metadata)) }
        ensures texts { IfSome result (λ new. (new.partial ≡ partial) × (new.concat ≡ concat.now)) }
    {
        Some(NewUpload {
            partial,
            length: self.length_told()?,
            metadata: self.fields.metadata.metadata()?,
            concat,
        })
    }

    // The length that a creation tells, or None in it where it will be told later.
    fn length_told(&self) -> Option<Option<u64>>
        ensures { result ≡ length_told self.now }
    {
        if self.fields.defer.is_absent() {
            self.fields.length.number().map(Some)
        } else if self.fields.length.is_absent() && self.fields.defer.is_just(b"1") {
            Some(None)
        } else {
            None
        }
    }

    // The final upload of these parts with this concat text, where the other fields tell one.
    fn new_final<'b>(
        &self,
        concat: &'b [u8],
        parts: &[PartPath],
        ids: &'b mut PartIds,
    ) -> Option<NewFinal<'b>>
    where
        'a: 'b,
        requires { length parts.now ≤ 32 }
        ensures value { result ≡ new_final_in self.now concat.now parts.now }
        ensures metadata { IfSome result (λ new. IsTrue (is_kept_metadata new.metadata)) }
    {
        let is_told = !self.fields.length.is_absent() || !self.fields.defer.is_absent();
        if !self.body.is_empty() || is_told {
            return None;
        }
        let metadata = self.fields.metadata.metadata()?;
        self.put_ids(parts, ids);
        Some(NewFinal {
            parts: ids.as_slice(),
            metadata,
            concat,
        })
    }

    // Puts the parts into `ids`, each by its id.
    fn put_ids(&self, parts: &[PartPath], ids: &mut PartIds)
        requires { length parts.now ≤ 32 }
        ensures { ids.new.items ≡ map (part_id self.now) parts.now }
    {
        ids.clear();
        for part in parts {
            ids.push(self.part_id(part));
        }
    }

    // The part by its id, and by none where it is of another tenant than the request's path names.
    fn part_id(&self, part: &PartPath) -> Option<u64>
        ensures { result ≡ part_id self.now part.now }
    {
        let own = self
            .tenant_name()
            .is_some_and(|name| name.as_slice() == part.tenant.as_slice());
        if own { Some(part.id) } else { None }
    }
}
