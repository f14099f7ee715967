ghost use Rattle.std.specs.Prelude.{◌≡◌, ◌≤◌, ◌↔◌, [], length, IsTrue};

use arrayvec::ArrayVec;
use std::marker::Model;

/// The most bytes of a tenant's name.
pub const TENANT_MAX: usize = 32;

/// A text with room for the name of a tenant. [`crate::is_tenant_name`] says what such a name is.
pub type Tenant = Text<TENANT_MAX>;

/// A text of at most `N` bytes, kept inline. A contract sees the list of its bytes.
#[derive(Drop)]
pub struct Text<const N: usize> {
    bytes: ArrayVec<u8, N>,
}

impl<const N: usize> Model for Text<N> {
    ghost use Rattle.std.specs.Prelude.{List, ℕ};

    ghost Value = { List ℕ };

    ghost view = { λ t. t.bytes.items };
}

impl<const N: usize> Text<N> {
    /// The text of no bytes, which stands for an absent one.
    pub fn empty() -> Self
        ensures { result ≡ [] }
    {
        Text {
            bytes: ArrayVec::new(),
        }
    }

    /// The text of `bytes`, which are at most `N` and are copied.
    pub fn of(bytes: &[u8]) -> Self
        requires { length bytes.now ≤ N }
        ensures { result ≡ bytes.now }
    {
        let mut text = ArrayVec::new();
        let copied = text.try_extend_from_slice(bytes);
        prove!(copied.is_ok());
        Text { bytes: text }
    }

    /// Becomes the text of `bytes`, which are at most `N` and are copied to where the text lies.
    pub fn set(&mut self, bytes: &[u8])
        requires { length bytes.now ≤ N }
        ensures { self.new ≡ bytes.now }
    {
        self.bytes.clear();
        let copied = self.bytes.try_extend_from_slice(bytes);
        prove!(copied.is_ok());
    }

    /// The bytes of the text.
    pub fn as_slice(&self) -> &[u8]
        ensures value { result.now ≡ self.now }
        ensures fits { length result.now ≤ N }
    {
        self.bytes.as_slice()
    }

    /// Whether the text has no bytes.
    pub fn is_empty(&self) -> bool
        ensures { IsTrue result ↔ (self.now ≡ []) }
    {
        self.bytes.is_empty()
    }

    /// The same text once more, without taking memory.
    pub fn copied(&self) -> Self
        ensures { result ≡ self.now }
    {
        Text::of(self.as_slice())
    }
}

impl<const N: usize> Default for Text<N> {
    ghost is_default = { λ t. t ≡ [] };

    fn default() -> Self {
        Text::empty()
    }
}
