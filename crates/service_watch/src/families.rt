//! Each family of numbers that is told.
ghost use Rattle.std.specs.Prelude.{◌≡◌, ◌++◌, OnOk};
ghost use Rattle.service_watch.specs.Families as families;
ghost use Rattle.service_watch.specs.Metrics.{family_text};

use crate::counts::{Histogram, NamedCount, ReplyCount};
use crate::exposition::{
    Figure, put_by_name, put_by_reply, put_counter, put_gauge, put_histogram, put_of_tenants,
    put_seconds_counter,
};
use crate::snapshot::TenantNumbers;
use std::alloc::{AllocError, Global};

#[tactic(auto, unfolding(crate::specs::Families::requests))]
pub(crate) fn put_requests(out: &mut Vec<u8>, replies: &[ReplyCount]) -> Result<(), AllocError>
    ensures { OnOk result (out.new.items ≡ out.old.items ++ family_text (families.requests replies.now)) }
{
    put_by_reply(
        out,
        b"cadrusmo_requests_total",
        b"Replies by method in force and status.",
        replies,
    )
}

#[tactic(auto, unfolding(crate::specs::Families::refusals))]
pub(crate) fn put_refusals(out: &mut Vec<u8>, words: &[NamedCount]) -> Result<(), AllocError>
    ensures { OnOk result (out.new.items ≡ out.old.items ++ family_text (families.refusals words.now)) }
{
    put_by_name(
        out,
        b"cadrusmo_refusals_total",
        b"Refusals by word.",
        b"word",
        words,
    )
}

#[tactic(auto, unfolding(crate::specs::Families::connections_cut))]
pub(crate) fn put_connections_cut(
    out: &mut Vec<u8>,
    reasons: &[NamedCount],
) -> Result<(), AllocError>
    ensures { OnOk result (out.new.items ≡ out.old.items ++ family_text (families.connections_cut reasons.now)) }
{
    put_by_name(
        out,
        b"cadrusmo_connections_cut_total",
        b"Connections cut off by reason.",
        b"reason",
        reasons,
    )
}

#[tactic(auto, unfolding(crate::specs::Families::request_seconds))]
pub(crate) fn put_request_seconds(
    out: &mut Vec<u8>,
    alloc: Global,
    seconds: &Histogram,
) -> Result<(), AllocError>
    ensures { OnOk result (out.new.items ≡ out.old.items ++ family_text (families.request_seconds seconds.now)) }
{
    put_histogram(
        out,
        alloc,
        b"cadrusmo_request_seconds",
        b"Seconds from the first byte of a request to its reply.",
        seconds,
    )
}

#[tactic(auto, unfolding(crate::specs::Families::tenant_blocks))]
pub(crate) fn put_tenant_blocks(
    out: &mut Vec<u8>,
    tenants: &[TenantNumbers],
) -> Result<(), AllocError>
    ensures { OnOk result (out.new.items ≡ out.old.items ++ family_text (families.tenant_blocks tenants.now)) }
{
    put_of_tenants(
        out,
        b"cadrusmo_tenant_blocks",
        b"Blocks that a tenant pays.",
        Figure::Paid,
        tenants,
    )
}

#[tactic(auto, unfolding(crate::specs::Families::tenant_quota))]
pub(crate) fn put_tenant_quota(
    out: &mut Vec<u8>,
    tenants: &[TenantNumbers],
) -> Result<(), AllocError>
    ensures { OnOk result (out.new.items ≡ out.old.items ++ family_text (families.tenant_quota tenants.now)) }
{
    put_of_tenants(
        out,
        b"cadrusmo_tenant_quota_blocks",
        b"Blocks that a tenant may pay.",
        Figure::Quota,
        tenants,
    )
}

#[tactic(auto, unfolding(crate::specs::Families::tenant_uploads))]
pub(crate) fn put_tenant_uploads(
    out: &mut Vec<u8>,
    tenants: &[TenantNumbers],
) -> Result<(), AllocError>
    ensures { OnOk result (out.new.items ≡ out.old.items ++ family_text (families.tenant_uploads tenants.now)) }
{
    put_of_tenants(
        out,
        b"cadrusmo_tenant_uploads",
        b"Uploads that a tenant has.",
        Figure::Uploads,
        tenants,
    )
}

#[tactic(auto, unfolding(crate::specs::Families::received_bytes))]
pub(crate) fn put_received_bytes(out: &mut Vec<u8>, number: u64) -> Result<(), AllocError>
    ensures { OnOk result (out.new.items ≡ out.old.items ++ family_text (families.received_bytes number)) }
{
    put_counter(
        out,
        b"cadrusmo_received_bytes_total",
        b"Bytes read from clients.",
        number,
    )
}

#[tactic(auto, unfolding(crate::specs::Families::sent_bytes))]
pub(crate) fn put_sent_bytes(out: &mut Vec<u8>, number: u64) -> Result<(), AllocError>
    ensures { OnOk result (out.new.items ≡ out.old.items ++ family_text (families.sent_bytes number)) }
{
    put_counter(
        out,
        b"cadrusmo_sent_bytes_total",
        b"Bytes written to clients.",
        number,
    )
}

#[tactic(auto, unfolding(crate::specs::Families::connections_accepted))]
pub(crate) fn put_connections_accepted(out: &mut Vec<u8>, number: u64) -> Result<(), AllocError>
    ensures { OnOk result (out.new.items ≡ out.old.items ++ family_text (families.connections_accepted number)) }
{
    put_counter(
        out,
        b"cadrusmo_connections_accepted_total",
        b"Connections accepted.",
        number,
    )
}

#[tactic(auto, unfolding(crate::specs::Families::connections_open))]
pub(crate) fn put_connections_open(out: &mut Vec<u8>, number: u64) -> Result<(), AllocError>
    ensures { OnOk result (out.new.items ≡ out.old.items ++ family_text (families.connections_open number)) }
{
    put_gauge(
        out,
        b"cadrusmo_connections_open",
        b"Connections open.",
        number,
    )
}

#[tactic(auto, unfolding(crate::specs::Families::blocks_free))]
pub(crate) fn put_blocks_free(out: &mut Vec<u8>, number: u64) -> Result<(), AllocError>
    ensures { OnOk result (out.new.items ≡ out.old.items ++ family_text (families.blocks_free number)) }
{
    put_gauge(
        out,
        b"cadrusmo_blocks_free",
        b"Blocks that no upload holds.",
        number,
    )
}

#[tactic(auto, unfolding(crate::specs::Families::blocks_charged))]
pub(crate) fn put_blocks_charged(out: &mut Vec<u8>, number: u64) -> Result<(), AllocError>
    ensures { OnOk result (out.new.items ≡ out.old.items ++ family_text (families.blocks_charged number)) }
{
    put_counter(
        out,
        b"cadrusmo_blocks_charged_total",
        b"Blocks charged to tenants.",
        number,
    )
}

#[tactic(auto, unfolding(crate::specs::Families::blocks_released))]
pub(crate) fn put_blocks_released(out: &mut Vec<u8>, number: u64) -> Result<(), AllocError>
    ensures { OnOk result (out.new.items ≡ out.old.items ++ family_text (families.blocks_released number)) }
{
    put_counter(
        out,
        b"cadrusmo_blocks_released_total",
        b"Blocks released by tenants.",
        number,
    )
}

#[tactic(auto, unfolding(crate::specs::Families::sweeps))]
pub(crate) fn put_sweeps(out: &mut Vec<u8>, number: u64) -> Result<(), AllocError>
    ensures { OnOk result (out.new.items ≡ out.old.items ++ family_text (families.sweeps number)) }
{
    put_counter(
        out,
        b"cadrusmo_sweeps_total",
        b"Looks for uploads that have expired.",
        number,
    )
}

#[tactic(auto, unfolding(crate::specs::Families::journal_syncs))]
pub(crate) fn put_journal_syncs(out: &mut Vec<u8>, number: u64) -> Result<(), AllocError>
    ensures { OnOk result (out.new.items ≡ out.old.items ++ family_text (families.journal_syncs number)) }
{
    put_counter(
        out,
        b"cadrusmo_journal_syncs_total",
        b"Syncs of records to the journal.",
        number,
    )
}

#[tactic(auto, unfolding(crate::specs::Families::journal_records))]
pub(crate) fn put_journal_records(out: &mut Vec<u8>, number: u64) -> Result<(), AllocError>
    ensures { OnOk result (out.new.items ≡ out.old.items ++ family_text (families.journal_records number)) }
{
    put_counter(
        out,
        b"cadrusmo_journal_records_total",
        b"Records kept in the journal since the start.",
        number,
    )
}

#[tactic(auto, unfolding(crate::specs::Families::journal_sync_seconds))]
pub(crate) fn put_journal_sync_seconds(out: &mut Vec<u8>, micros: u64) -> Result<(), AllocError>
    ensures { OnOk result (out.new.items ≡ out.old.items ++ family_text (families.journal_sync_seconds micros)) }
{
    put_seconds_counter(
        out,
        b"cadrusmo_journal_sync_seconds_total",
        b"Seconds of appending records and syncing them.",
        micros,
    )
}

#[tactic(auto, unfolding(crate::specs::Families::journal_bytes))]
pub(crate) fn put_journal_bytes(out: &mut Vec<u8>, number: u64) -> Result<(), AllocError>
    ensures { OnOk result (out.new.items ≡ out.old.items ++ family_text (families.journal_bytes number)) }
{
    put_gauge(
        out,
        b"cadrusmo_journal_bytes",
        b"Bytes of the file of the journal that records fill.",
        number,
    )
}

#[tactic(auto, unfolding(crate::specs::Families::journal_file_bytes))]
pub(crate) fn put_journal_file_bytes(out: &mut Vec<u8>, number: u64) -> Result<(), AllocError>
    ensures { OnOk result (out.new.items ≡ out.old.items ++ family_text (families.journal_file_bytes number)) }
{
    put_gauge(
        out,
        b"cadrusmo_journal_file_bytes",
        b"Bytes of the file of the journal, with the zeros ahead.",
        number,
    )
}

#[tactic(auto, unfolding(crate::specs::Families::log_lines_lost))]
pub(crate) fn put_log_lines_lost(out: &mut Vec<u8>, number: u64) -> Result<(), AllocError>
    ensures { OnOk result (out.new.items ≡ out.old.items ++ family_text (families.log_lines_lost number)) }
{
    put_counter(
        out,
        b"cadrusmo_log_lines_lost_total",
        b"Lines of the log that could not be written.",
        number,
    )
}

#[tactic(auto, unfolding(crate::specs::Families::resident_memory))]
pub(crate) fn put_resident_memory(out: &mut Vec<u8>, number: u64) -> Result<(), AllocError>
    ensures { OnOk result (out.new.items ≡ out.old.items ++ family_text (families.resident_memory number)) }
{
    put_gauge(
        out,
        b"process_resident_memory_bytes",
        b"Bytes of the process that are in memory.",
        number,
    )
}
