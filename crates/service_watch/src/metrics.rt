//! All numbers as one text.
ghost use Rattle.std.specs.Prelude.{◌≡◌, ◌++◌, OnOk, IfOk};
ghost use Rattle.std.specs.List.{flat_map};
ghost use Rattle.service_watch.specs.Families as families;
ghost use Rattle.service_watch.specs.Metrics.{family_text};

use crate::families::{
    put_blocks_charged, put_blocks_free, put_blocks_released, put_connections_accepted,
    put_connections_cut, put_connections_open, put_journal_bytes, put_journal_file_bytes,
    put_journal_records, put_journal_sync_seconds, put_journal_syncs, put_log_lines_lost,
    put_received_bytes, put_refusals, put_request_seconds, put_requests, put_resident_memory,
    put_sent_bytes, put_sweeps, put_tenant_blocks, put_tenant_quota, put_tenant_uploads,
};
use crate::snapshot::{JournalNumbers, Snapshot, TenantNumbers};
use std::alloc::{AllocError, Global};

/// The numbers in Prometheus' text format. The error is that memory is lacking.
#[tactic(auto, unfolding(crate::specs::Families::metrics_text))]
pub fn metrics_text(alloc: Global, snapshot: &Snapshot) -> Result<Vec<u8>, AllocError>
    ensures { IfOk result (λ text. text.items ≡ families.metrics_text snapshot.now) }
{
    let mut out = Vec::new(alloc);
    put_request_families(&mut out, alloc, snapshot)?;
    put_connection_families(&mut out, snapshot)?;
    put_tenant_families(&mut out, snapshot.tenants)?;
    put_store_families(&mut out, snapshot)?;
    put_journal_families(&mut out, snapshot)?;
    put_process_families(&mut out, snapshot)?;
    Ok(out)
}

#[tactic(auto, unfolding(crate::specs::Families::request_families))]
fn put_request_families(
    out: &mut Vec<u8>,
    alloc: Global,
    snapshot: &Snapshot,
) -> Result<(), AllocError>
    ensures { OnOk result (out.new.items ≡ out.old.items ++ flat_map family_text (families.request_families snapshot.now)) }
{
    put_requests(out, &snapshot.counts.replies)?;
    put_refusals(out, &snapshot.counts.refusals)?;
    put_request_seconds(out, alloc, &snapshot.counts.seconds)?;
    put_received_bytes(out, snapshot.counts.received)?;
    put_sent_bytes(out, snapshot.counts.sent)
}

#[tactic(auto, unfolding(crate::specs::Families::connection_families))]
fn put_connection_families(out: &mut Vec<u8>, snapshot: &Snapshot) -> Result<(), AllocError>
    ensures { OnOk result (out.new.items ≡ out.old.items ++ flat_map family_text (families.connection_families snapshot.now)) }
{
    put_connections_accepted(out, snapshot.counts.accepted)?;
    put_connections_cut(out, &snapshot.counts.cuts)?;
    put_connections_open(out, snapshot.connections)
}

#[tactic(auto, unfolding(crate::specs::Families::tenant_families))]
fn put_tenant_families(out: &mut Vec<u8>, tenants: &[TenantNumbers]) -> Result<(), AllocError>
    ensures { OnOk result (out.new.items ≡ out.old.items ++ flat_map family_text (families.tenant_families tenants.now)) }
{
    put_tenant_blocks(out, tenants)?;
    put_tenant_quota(out, tenants)?;
    put_tenant_uploads(out, tenants)
}

#[tactic(auto, unfolding(crate::specs::Families::store_families))]
fn put_store_families(out: &mut Vec<u8>, snapshot: &Snapshot) -> Result<(), AllocError>
    ensures { OnOk result (out.new.items ≡ out.old.items ++ flat_map family_text (families.store_families snapshot.now)) }
{
    put_blocks_free(out, snapshot.blocks_free)?;
    put_blocks_charged(out, snapshot.blocks_charged)?;
    put_blocks_released(out, snapshot.blocks_released)?;
    put_sweeps(out, snapshot.counts.sweeps)
}

fn put_journal_families(out: &mut Vec<u8>, snapshot: &Snapshot) -> Result<(), AllocError>
    ensures { OnOk result (out.new.items ≡ out.old.items ++ flat_map family_text (families.journal_families snapshot.now.journal)) }
{
    match snapshot.journal {
        Some(numbers) => put_families_of_journal(out, &numbers),
        None => Ok(()),
    }
}

#[tactic(auto, unfolding(crate::specs::Families::families_of_journal))]
fn put_families_of_journal(out: &mut Vec<u8>, numbers: &JournalNumbers) -> Result<(), AllocError>
    ensures { OnOk result (out.new.items ≡ out.old.items ++ flat_map family_text (families.families_of_journal numbers.now)) }
{
    put_journal_syncs(out, numbers.syncs)?;
    put_journal_records(out, numbers.records)?;
    put_journal_sync_seconds(out, numbers.micros)?;
    put_journal_bytes(out, numbers.bytes)?;
    put_journal_file_bytes(out, numbers.file_bytes)
}

#[tactic(auto, unfolding(crate::specs::Families::process_families))]
fn put_process_families(out: &mut Vec<u8>, snapshot: &Snapshot) -> Result<(), AllocError>
    ensures { OnOk result (out.new.items ≡ out.old.items ++ flat_map family_text (families.process_families snapshot.now)) }
{
    put_log_lines_lost(out, snapshot.counts.lost_lines)?;
    match snapshot.resident {
        Some(bytes) => put_resident_memory(out, bytes),
        None => Ok(()),
    }
}
