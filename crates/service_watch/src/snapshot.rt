//! The numbers that are told at one moment.
use crate::counts::Counts;
use std::marker::Model;
use tus_text::Tenant;

/// What a tenant pays and may pay, in blocks, and how many uploads it has.
#[derive(Drop)]
pub struct TenantNumbers {
    pub name: Tenant,
    pub paid: u64,
    pub quota: u64,
    /// Expired ones included, until a sweep ends them.
    pub uploads: u64,
}

/// What a journal has kept since the start, and how large it is.
#[derive(Clone, Copy)]
pub struct JournalNumbers {
    /// How often records were synced.
    pub syncs: u64,
    /// How many records were kept by these syncs.
    pub records: u64,
    /// The microseconds of appending and syncing them.
    pub micros: u64,
    /// The bytes of the journal's file that records fill.
    pub bytes: u64,
    /// The bytes of the journal's file, with the zeros ahead.
    pub file_bytes: u64,
}

/// The numbers that are told at one moment.
#[derive(Drop)]
pub struct Snapshot<'a> {
    pub counts: &'a Counts,
    pub tenants: &'a [TenantNumbers],
    /// Connections that are open.
    pub connections: u64,
    /// Blocks that are free, and those that were ever charged and released.
    pub blocks_free: u64,
    pub blocks_charged: u64,
    pub blocks_released: u64,
    /// Those of the journal, where there is one.
    pub journal: Option<JournalNumbers>,
    /// The bytes of the process that are in memory, where the system tells them.
    pub resident: Option<u64>,
}

impl<'a> Model for Snapshot<'a> {
    ghost use Rattle.service_watch.specs.Snapshot as spec;

    ghost Value = { spec.Snapshot };

    ghost view = { λ s. record {
      counts = s.counts.now;
      tenants = s.tenants.now;
      connections = s.connections;
      blocks_free = s.blocks_free;
      blocks_charged = s.blocks_charged;
      blocks_released = s.blocks_released;
      journal = s.journal;
      resident = s.resident;
    } };
}
