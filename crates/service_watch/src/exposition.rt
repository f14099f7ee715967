//! Samples of numbers in Prometheus' text format.
ghost use Rattle.std.specs.Prelude.{◌≡◌, ◌++◌, map, decimal, OnOk, codes, [], ◌∷◌};
ghost use Rattle.std.specs.List.{flat_map};
ghost use Rattle.service_watch.specs.Metrics as spec;
ghost use Rattle.service_watch.specs.Metrics.{bound_sample, bucket_sample, by_name, by_reply, count_sample, counter, family_text, figure, gauge, help_line, histogram_ends, label_byte, label_text, label_value, labelled, labels_text, lead_text, named_sample, of_tenants, plain, reply_labels, reply_sample, sample_text, seconds_counter, seconds_sample, sum_sample, type_line};

use crate::counts::{Bucket, Histogram, NamedCount, ReplyCount};
use crate::put::put_number;
use crate::seconds::put_seconds;
use crate::snapshot::TenantNumbers;
use itoa::Buffer;
use std::alloc::{AllocError, Global};

// Puts the two lines that lead a family.
#[tactic(auto, unfolding(crate::specs::Metrics::lead_text))]
fn put_lead(out: &mut Vec<u8>, name: &[u8], help: &[u8], kind: &[u8]) -> Result<(), AllocError>
    ensures { OnOk result (out.new.items ≡ out.old.items ++ lead_text name.now help.now kind.now) }
{
    put_help_line(out, name, help)?;
    put_type_line(out, name, kind)
}

#[tactic(auto, unfolding(crate::specs::Metrics::help_line))]
fn put_help_line(out: &mut Vec<u8>, name: &[u8], help: &[u8]) -> Result<(), AllocError>
    ensures { OnOk result (out.new.items ≡ out.old.items ++ help_line name.now help.now) }
{
    out.extend_from_slice(b"# HELP ")?;
    out.extend_from_slice(name)?;
    out.extend_from_slice(b" ")?;
    out.extend_from_slice(help)?;
    out.extend_from_slice(b"\n")
}

#[tactic(auto, unfolding(crate::specs::Metrics::type_line))]
fn put_type_line(out: &mut Vec<u8>, name: &[u8], kind: &[u8]) -> Result<(), AllocError>
    ensures { OnOk result (out.new.items ≡ out.old.items ++ type_line name.now kind.now) }
{
    out.extend_from_slice(b"# TYPE ")?;
    out.extend_from_slice(name)?;
    out.extend_from_slice(b" ")?;
    out.extend_from_slice(kind)?;
    out.extend_from_slice(b"\n")
}

/// Puts a family of one number that only rises.
pub(crate) fn put_counter(
    out: &mut Vec<u8>,
    name: &[u8],
    help: &[u8],
    number: u64,
) -> Result<(), AllocError>
    ensures { OnOk result (out.new.items ≡ out.old.items ++ family_text (counter name.now help.now number)) }
{
    put_lead(out, name, help, b"counter")?;
    put_plain(out, name, number)
}

/// Puts a family of one number that goes up and down.
pub(crate) fn put_gauge(
    out: &mut Vec<u8>,
    name: &[u8],
    help: &[u8],
    number: u64,
) -> Result<(), AllocError>
    ensures { OnOk result (out.new.items ≡ out.old.items ++ family_text (gauge name.now help.now number)) }
{
    put_lead(out, name, help, b"gauge")?;
    put_plain(out, name, number)
}

/// Puts a family of seconds that only rise.
pub(crate) fn put_seconds_counter(
    out: &mut Vec<u8>,
    name: &[u8],
    help: &[u8],
    micros: u64,
) -> Result<(), AllocError>
    ensures { OnOk result (out.new.items ≡ out.old.items ++ family_text (seconds_counter name.now help.now micros)) }
{
    put_lead(out, name, help, b"counter")?;
    put_plain_seconds(out, name, micros)
}

/// Puts a family of numbers that only rise, one for each method and status.
pub(crate) fn put_by_reply(
    out: &mut Vec<u8>,
    name: &[u8],
    help: &[u8],
    replies: &[ReplyCount],
) -> Result<(), AllocError>
    ensures { OnOk result (out.new.items ≡ out.old.items ++ family_text (by_reply name.now help.now replies.now)) }
{
    put_lead(out, name, help, b"counter")?;
    put_replies(out, name, replies)
}

/// Puts a family of numbers that only rise, one for each value of a label.
pub(crate) fn put_by_name(
    out: &mut Vec<u8>,
    name: &[u8],
    help: &[u8],
    label: &[u8],
    counts: &[NamedCount],
) -> Result<(), AllocError>
    ensures { OnOk result (out.new.items ≡ out.old.items ++ family_text (by_name name.now help.now label.now counts.now)) }
{
    put_lead(out, name, help, b"counter")?;
    put_named_counts(out, name, label, counts)
}

/// Puts how long something took.
#[tactic(auto, using(std::proofs::lemmas::Grind::common_steps))]
pub(crate) fn put_histogram(
    out: &mut Vec<u8>,
    alloc: Global,
    name: &[u8],
    help: &[u8],
    histogram: &Histogram,
) -> Result<(), AllocError>
    ensures { OnOk result (out.new.items ≡ out.old.items ++ family_text (spec.histogram name.now help.now histogram.now)) }
{
    put_lead(out, name, help, b"histogram")?;
    put_buckets(out, alloc, name, &histogram.buckets)?;
    put_histogram_ends(out, name, histogram)
}

/// Which of a tenant's numbers is told.
#[derive(Clone, Copy)]
pub(crate) enum Figure {
    Paid,
    Quota,
    Uploads,
}

impl Figure {
    fn of(self, tenant: &TenantNumbers) -> u64
        ensures { result ≡ figure self tenant.now }
    {
        match self {
            Figure::Paid => tenant.paid,
            Figure::Quota => tenant.quota,
            Figure::Uploads => tenant.uploads,
        }
    }
}

/// Puts a family of one number of each tenant.
pub(crate) fn put_of_tenants(
    out: &mut Vec<u8>,
    name: &[u8],
    help: &[u8],
    told: Figure,
    tenants: &[TenantNumbers],
) -> Result<(), AllocError>
    ensures { OnOk result (out.new.items ≡ out.old.items ++ family_text (of_tenants name.now help.now (figure told) tenants.now)) }
{
    put_lead(out, name, help, b"gauge")?;
    put_each_tenant(out, name, told, tenants)
}

#[tactic(auto, unfolding(crate::specs::Metrics::sample_text, crate::specs::Metrics::labels_text))]
fn put_plain_seconds(out: &mut Vec<u8>, name: &[u8], micros: u64) -> Result<(), AllocError>
    ensures { OnOk result (out.new.items ≡ out.old.items ++ sample_text name.now (seconds_sample micros)) }
{
    out.extend_from_slice(name)?;
    out.extend_from_slice(b" ")?;
    put_seconds(out, micros)?;
    out.extend_from_slice(b"\n")
}

#[tactic(auto, unfolding(crate::specs::Metrics::sample_text, crate::specs::Metrics::labels_text))]
fn put_plain(out: &mut Vec<u8>, name: &[u8], number: u64) -> Result<(), AllocError>
    ensures { OnOk result (out.new.items ≡ out.old.items ++ sample_text name.now (plain number)) }
{
    out.extend_from_slice(name)?;
    put_ending(out, number)
}

// Puts a space, a number and the end of the line.
fn put_ending(out: &mut Vec<u8>, number: u64) -> Result<(), AllocError>
    ensures { OnOk result (out.new.items ≡ out.old.items ++ (codes " " ++ decimal number ++ codes "\n")) }
{
    out.extend_from_slice(b" ")?;
    put_number(out, number)?;
    out.extend_from_slice(b"\n")
}

// Puts a sample for each name.
fn put_named_counts(
    out: &mut Vec<u8>,
    name: &[u8],
    label: &[u8],
    counts: &[NamedCount],
) -> Result<(), AllocError>
    ensures { OnOk result (out.new.items ≡ out.old.items
        ++ flat_map (sample_text name.now) (map (named_sample label.now) counts.now)) }
{
    for count in counts {
        put_labelled(out, name, label, count.name.as_slice(), count.count)?;
    }
    Ok(())
}

// Puts a sample for each tenant.
fn put_each_tenant(
    out: &mut Vec<u8>,
    name: &[u8],
    told: Figure,
    tenants: &[TenantNumbers],
) -> Result<(), AllocError>
    ensures { OnOk result (out.new.items ≡ out.old.items
        ++ flat_map (sample_text name.now) (map (λ t. labelled (codes "tenant") t.name (figure told t)) tenants.now)) }
{
    for tenant in tenants {
        put_labelled(
            out,
            name,
            b"tenant",
            tenant.name.as_slice(),
            told.of(tenant),
        )?;
    }
    Ok(())
}

// Puts a number under one label.
#[tactic(auto, unfolding(crate::specs::Metrics::sample_text, crate::specs::Metrics::labels_text))]
fn put_labelled(
    out: &mut Vec<u8>,
    name: &[u8],
    label: &[u8],
    value: &[u8],
    number: u64,
) -> Result<(), AllocError>
    ensures { OnOk result (out.new.items ≡ out.old.items ++ sample_text name.now (labelled label.now value.now number)) }
{
    out.extend_from_slice(name)?;
    out.extend_from_slice(b"{")?;
    put_label(out, label, value)?;
    out.extend_from_slice(b"}")?;
    put_ending(out, number)
}

// Puts a label, with its value in quotes.
#[tactic(auto, unfolding(crate::specs::Metrics::label_text))]
fn put_label(out: &mut Vec<u8>, name: &[u8], value: &[u8]) -> Result<(), AllocError>
    ensures { OnOk result (out.new.items ≡ out.old.items ++ label_text (record { name = name.now; value = value.now })) }
{
    out.extend_from_slice(name)?;
    out.extend_from_slice(b"=\"")?;
    put_label_value(out, value)?;
    out.extend_from_slice(b"\"")
}

#[tactic(auto, unfolding(crate::specs::Metrics::label_value))]
fn put_label_value(out: &mut Vec<u8>, value: &[u8]) -> Result<(), AllocError>
    ensures { OnOk result (out.new.items ≡ out.old.items ++ label_value value.now) }
{
    for byte in value {
        put_label_byte(out, *byte)?;
    }
    Ok(())
}

fn put_label_byte(out: &mut Vec<u8>, byte: u8) -> Result<(), AllocError>
    ensures { OnOk result (out.new.items ≡ out.old.items ++ label_byte byte) }
{
    if byte == b'\\' {
        out.extend_from_slice(b"\\\\")
    } else if byte == b'"' {
        out.extend_from_slice(b"\\\"")
    } else if byte == b'\n' {
        out.extend_from_slice(b"\\n")
    } else {
        out.extend_from_slice(&[byte])
    }
}

// Puts a sample for each method and status.
fn put_replies(out: &mut Vec<u8>, name: &[u8], replies: &[ReplyCount]) -> Result<(), AllocError>
    ensures { OnOk result (out.new.items ≡ out.old.items ++ flat_map (sample_text name.now) (map reply_sample replies.now)) }
{
    for reply in replies {
        put_reply(out, name, reply)?;
    }
    Ok(())
}

#[tactic(auto, unfolding(crate::specs::Metrics::sample_text))]
fn put_reply(out: &mut Vec<u8>, name: &[u8], reply: &ReplyCount) -> Result<(), AllocError>
    ensures { OnOk result (out.new.items ≡ out.old.items ++ sample_text name.now (reply_sample reply.now)) }
{
    out.extend_from_slice(name)?;
    put_reply_labels(out, reply)?;
    put_ending(out, reply.count)
}

#[tactic(auto, unfolding(crate::specs::Metrics::labels_text))]
fn put_reply_labels(out: &mut Vec<u8>, reply: &ReplyCount) -> Result<(), AllocError>
    ensures { OnOk result (out.new.items ≡ out.old.items ++ labels_text (reply_labels reply.now)) }
{
    let mut digits = Buffer::new();
    out.extend_from_slice(b"{")?;
    put_label(out, b"method", reply.method.as_slice())?;
    out.extend_from_slice(b",")?;
    put_label(out, b"status", digits.format(reply.status).as_bytes())?;
    out.extend_from_slice(b"}")
}

// Puts a sample for each bucket.
fn put_buckets(
    out: &mut Vec<u8>,
    alloc: Global,
    name: &[u8],
    buckets: &[Bucket],
) -> Result<(), AllocError>
    ensures { OnOk result (out.new.items ≡ out.old.items ++ flat_map (sample_text name.now) (map bucket_sample buckets.now)) }
{
    for bucket in buckets {
        put_bucket(out, alloc, name, bucket)?;
    }
    Ok(())
}

fn put_bucket(
    out: &mut Vec<u8>,
    alloc: Global,
    name: &[u8],
    bucket: &Bucket,
) -> Result<(), AllocError>
    ensures { OnOk result (out.new.items ≡ out.old.items ++ sample_text name.now (bucket_sample bucket.now)) }
{
    let mut bound = Vec::new(alloc);
    put_seconds(&mut bound, bucket.bound)?;
    put_bound(out, name, &bound, bucket.count)
}

// Puts how many were not above a bound, which stands there as text.
#[tactic(auto, unfolding(crate::specs::Metrics::sample_text, crate::specs::Metrics::labels_text))]
fn put_bound(out: &mut Vec<u8>, name: &[u8], bound: &[u8], count: u64) -> Result<(), AllocError>
    ensures { OnOk result (out.new.items ≡ out.old.items ++ sample_text name.now (bound_sample bound.now count)) }
{
    out.extend_from_slice(name)?;
    out.extend_from_slice(b"_bucket{")?;
    put_label(out, b"le", bound)?;
    out.extend_from_slice(b"}")?;
    put_ending(out, count)
}

// Puts what ends a histogram: how many there were of any length, their seconds together, and how many there were.
fn put_histogram_ends(
    out: &mut Vec<u8>,
    name: &[u8],
    histogram: &Histogram,
) -> Result<(), AllocError>
    ensures { OnOk result (out.new.items ≡ out.old.items ++ flat_map (sample_text name.now) (histogram_ends histogram.now)) }
{
    put_bound(out, name, b"+Inf", histogram.count)?;
    put_sum(out, name, histogram.micros)?;
    put_count(out, name, histogram.count)
}

#[tactic(auto, unfolding(crate::specs::Metrics::sample_text, crate::specs::Metrics::labels_text))]
fn put_sum(out: &mut Vec<u8>, name: &[u8], micros: u64) -> Result<(), AllocError>
    ensures { OnOk result (out.new.items ≡ out.old.items ++ sample_text name.now (sum_sample micros)) }
{
    out.extend_from_slice(name)?;
    out.extend_from_slice(b"_sum ")?;
    put_seconds(out, micros)?;
    out.extend_from_slice(b"\n")
}

#[tactic(auto, unfolding(crate::specs::Metrics::sample_text, crate::specs::Metrics::labels_text))]
fn put_count(out: &mut Vec<u8>, name: &[u8], count: u64) -> Result<(), AllocError>
    ensures { OnOk result (out.new.items ≡ out.old.items ++ sample_text name.now (count_sample count)) }
{
    out.extend_from_slice(name)?;
    out.extend_from_slice(b"_count")?;
    put_ending(out, count)
}
