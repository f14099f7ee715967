ghost use Rattle.std.specs.Prelude.{Bool, false};

use std::marker::Brand;
use tus_shared::Charges;

/// Stands for what one opening of a store over a journal fixes, beside what [`Charges`] tells: a keeper can only be used with
/// the store and the desks of its opening.
pub trait Journalled: Charges {
    // Whether the disk had told no lie when the journal was opened. No code can tell, so only theorems rest on it.
    ghost honest: { Bool };
}

impl Journalled for Brand {
    ghost honest = { false };
}
