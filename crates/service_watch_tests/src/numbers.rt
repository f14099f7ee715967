//! Numbers in Prometheus' text format.
use service_watch::{
    Counts, JournalNumbers, Snapshot, TenantNumbers, WORD_MAX, Word, count_named, count_reply,
    metrics_text,
};
use std::alloc::Global;
use std::process::Abort;
use std::test::Fail;
use tus_text::Tenant;

/// A word, and the line with its label's value.
static WORDS: [(&[u8], &[u8]); 5] = [
    (b"quota", b"cadrusmo_refusals_total{word=\"quota\"} 1"),
    (b"", b"cadrusmo_refusals_total{word=\"\"} 1"),
    (b"a\"b", b"cadrusmo_refusals_total{word=\"a\\\"b\"} 1"),
    (b"a\\b", b"cadrusmo_refusals_total{word=\"a\\\\b\"} 1"),
    (b"a\nb", b"cadrusmo_refusals_total{word=\"a\\nb\"} 1"),
];

fn snapshot<'a>(counts: &'a Counts, tenants: &'a [TenantNumbers]) -> Snapshot<'a> {
    Snapshot {
        counts,
        tenants,
        connections: 2,
        blocks_free: 9,
        blocks_charged: 7,
        blocks_released: 6,
        journal: Some(JournalNumbers {
            syncs: 3,
            records: 5,
            micros: 1_250_000,
            bytes: 640,
            file_bytes: 1_048_592,
        }),
        resident: Some(4096),
    }
}

// Asserts that this is a line of the text.
fn assert_line(rt: &impl Abort, text: &[u8], line: &[u8]) {
    assert!(rt; text.split(|byte| *byte == b'\n').any(|other| other == line));
}

// Asserts that these are lines of the text that shows the counts and the tenants.
fn assert_lines(
    rt: &impl Abort,
    alloc: Global,
    counts: &Counts,
    tenants: &[TenantNumbers],
    lines: &[&[u8]],
) -> Result<(), Fail> {
    let text = metrics_text(alloc, &snapshot(counts, tenants))?;
    for line in lines {
        assert_line(rt, &text, line);
    }
    Ok(())
}

fn assert_counted(rt: &impl Abort, alloc: Global, word: &[u8], line: &[u8]) -> Result<(), Fail> {
    let mut counts = Counts::new(alloc);
    if word.len() > WORD_MAX {
        panic!(rt; "a long word");
    }
    count_named(&mut counts.refusals, &Word::of(word))?;
    assert_lines(rt, alloc, &counts, &[], &[line])
}

#[test]
fn values_of_labels(rt: HostRuntime) -> Result<(), Fail> {
    for (word, line) in &WORDS {
        assert_counted(&rt, rt.alloc(), word, line)?;
    }
    Ok(())
}

static REPLIES: [&[u8]; 2] = [
    b"cadrusmo_requests_total{method=\"HEAD\",status=\"200\"} 2",
    b"cadrusmo_requests_total{method=\"PATCH\",status=\"404\"} 1",
];

#[test]
fn replies_by_method_and_status(rt: HostRuntime) -> Result<(), Fail> {
    let mut counts = Counts::new(rt.alloc());
    count_reply(&mut counts.replies, &Word::of(b"HEAD"), 200)?;
    count_reply(&mut counts.replies, &Word::of(b"HEAD"), 404)?;
    count_reply(&mut counts.replies, &Word::of(b"PATCH"), 404)?;
    count_reply(&mut counts.replies, &Word::of(b"HEAD"), 200)?;
    assert_lines(&rt, rt.alloc(), &counts, &[], &REPLIES)
}

static BUCKETS: [&[u8]; 6] = [
    b"cadrusmo_request_seconds_bucket{le=\"0.0005\"} 1",
    b"cadrusmo_request_seconds_bucket{le=\"2.5\"} 2",
    b"cadrusmo_request_seconds_bucket{le=\"10\"} 2",
    b"cadrusmo_request_seconds_bucket{le=\"+Inf\"} 3",
    b"cadrusmo_request_seconds_sum 12.000501",
    b"cadrusmo_request_seconds_count 3",
];

#[test]
fn buckets_of_seconds(rt: HostRuntime) -> Result<(), Fail> {
    let mut counts = Counts::new(rt.alloc());
    counts.seconds.count_request(500);
    counts.seconds.count_request(2_000_000);
    counts.seconds.count_request(10_000_001);
    assert_lines(&rt, rt.alloc(), &counts, &[], &BUCKETS)
}

static OTHERS: [&[u8]; 5] = [
    b"# TYPE cadrusmo_request_seconds histogram",
    b"cadrusmo_tenant_blocks{tenant=\"acme\"} 3",
    b"cadrusmo_tenant_quota_blocks{tenant=\"acme\"} 8",
    b"cadrusmo_tenant_uploads{tenant=\"acme\"} 2",
    b"process_resident_memory_bytes 4096",
];

#[test]
fn other_numbers(rt: HostRuntime) -> Result<(), Fail> {
    let counts = Counts::new(rt.alloc());
    let tenants = [TenantNumbers {
        name: Tenant::of(b"acme"),
        paid: 3,
        quota: 8,
        uploads: 2,
    }];
    assert_lines(&rt, rt.alloc(), &counts, &tenants, &OTHERS)
}

static JOURNAL: [&[u8]; 7] = [
    b"# TYPE cadrusmo_journal_syncs_total counter",
    b"cadrusmo_journal_syncs_total 3",
    b"cadrusmo_journal_records_total 5",
    b"cadrusmo_journal_sync_seconds_total 1.25",
    b"# TYPE cadrusmo_journal_bytes gauge",
    b"cadrusmo_journal_bytes 640",
    b"cadrusmo_journal_file_bytes 1048592",
];

#[test]
fn numbers_of_a_journal(rt: HostRuntime) -> Result<(), Fail> {
    let counts = Counts::new(rt.alloc());
    assert_lines(&rt, rt.alloc(), &counts, &[], &JOURNAL)
}
