//! Whether the settings of a start may follow those that a journal is of.
ghost use Rattle.std.specs.Prelude.{◌≡◌, ◌<◌, Some, IfNone, OnSome, length, map, option_map, slice_get};
ghost use mathlib.Core.List.{IsPrefix};
ghost use Rattle.server_words.specs.MadeAgain.{MakesTheSame};
ghost use Rattle.server_words.specs.MayFollow.{MayFollow, difference_in, finished_difference, first_difference, names_of, renewing_difference, tenant_difference};

use crate::sentence::{Excerpt, shown_bytes};
use upload_book::Settings;

/// What of the settings of a journal is not so in the options.
#[derive(Clone, Copy, Debug, PartialEq, Eq)]
pub enum Difference {
    /// The lifetime of uploads, in seconds.
    Lifetime {
        journal: u64,
        options: u64,
    },
    /// The lifetime of finished uploads, in seconds; 0 where they stay.
    FinishedLifetime {
        journal: u64,
        options: u64,
    },
    /// The options have no tenant at this place, counted from 1.
    NoTenant {
        place: u64,
        journal: Excerpt,
    },
    /// The options have another tenant at this place, counted from 1.
    OtherTenant {
        place: u64,
        journal: Excerpt,
        options: Excerpt,
    },
}

/// What of the settings of a journal is not so in those of the options, if anything is: first the lifetime, then that of finished
/// uploads, then the first tenant that has not its place there. Where nothing is, the changes of the journal that these options accept make the same
/// uploads again, under the same ids, with the same bytes and ends.
pub fn first_difference(journal: &Settings, options: &Settings) -> Option<Difference>
    ensures first { option_map difference_in result ≡ first_difference journal.now options.now }
    ensures follows { IfNone result (MayFollow journal.now options.now) }
    ensures again { IfNone result (MakesTheSame journal.now options.now) }
    ensures differs { OnSome result (¬ (MayFollow journal.now options.now)) }
{
    let was = journal.numbers().lifetime;
    let is = options.numbers().lifetime;
    if was == is {
        finished_difference(journal, options)
    } else {
        Some(Difference::Lifetime {
            journal: was,
            options: is,
        })
    }
}

/// The same where the lifetimes of unfinished uploads are the same: first the lifetime of finished uploads, then the first tenant
/// that has not its place.
fn finished_difference(journal: &Settings, options: &Settings) -> Option<Difference>
    ensures { option_map difference_in result ≡ finished_difference journal.now options.now }
{
    let was = journal.numbers().finished_lifetime;
    let is = options.numbers().finished_lifetime;
    if was == is {
        tenant_difference(journal, options)
    } else {
        Some(Difference::FinishedLifetime {
            journal: was,
            options: is,
        })
    }
}

/// What first keeps the uploads of a journal from being put under the settings of the options, if anything does: finished uploads
/// stay by these, where they end by themselves in the journal; or a tenant has not its place there. Other numbers are not looked
/// at.
pub fn renewing_difference(journal: &Settings, options: &Settings) -> Option<Difference>
    ensures first { option_map difference_in result ≡ renewing_difference journal.now options.now }
    ensures same { IfNone result (IsPrefix (names_of journal.now) (names_of options.now)) }
{
    let was = journal.numbers().finished_lifetime;
    let is = options.numbers().finished_lifetime;
    if is == 0 && was != 0 {
        return Some(Difference::FinishedLifetime {
            journal: was,
            options: is,
        });
    }
    tenant_difference(journal, options)
}

/// The first tenant of a journal that has not its place in the options, if there is one: the place, counted from 1, its name,
/// and the name of the tenant that the options have there. Lifetimes, quotas and other numbers are not looked at.
fn tenant_difference(journal: &Settings, options: &Settings) -> Option<Difference>
    ensures first { option_map difference_in result ≡ tenant_difference 1 journal.now.tenants options.now.tenants }
    ensures same { IfNone result (IsPrefix (names_of journal.now) (names_of options.now)) }
    ensures differs { OnSome result (¬ (IsPrefix (names_of journal.now) (names_of options.now))) }
{
    let names = options.tenant_count();
    for place in 0..journal.tenant_count() {
        let name = name_at(journal, place);
        if place >= names {
            return Some(Difference::NoTenant {
                place: place as u64 + 1,
                journal: shown_bytes(name),
            });
        }
        let other = name_at(options, place);
        if name != other {
            return Some(Difference::OtherTenant {
                place: place as u64 + 1,
                journal: shown_bytes(name),
                options: shown_bytes(other),
            });
        }
    }
    None
}

/// The name of the tenant at this place, from 0.
#[tactic(auto, using(crate::proofs::SettingsLemmas::few_tenants))]
pub fn name_at(settings: &Settings, place: usize) -> &[u8]
    requires { place < length settings.now.tenants }
    ensures { slice_get (map (λ t. t.name) settings.now.tenants) place ≡ Some result.now }
{
    let _sound = settings.numbers();
    settings.tenant_name(place as u8).as_slice()
}
