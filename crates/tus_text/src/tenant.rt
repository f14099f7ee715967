ghost use Rattle.std.specs.Prelude.{◌≡◌};
ghost use Rattle.tus_text.specs.Tenant.{is_tenant_byte, is_tenant_name};

use crate::text::TENANT_MAX;

/// Whether `name` can name a tenant: 1 to [`TENANT_MAX`] bytes of `a` to `z`, digits and `-`.
pub fn is_tenant_name(name: &[u8]) -> bool
    ensures { result ≡ is_tenant_name name.now }
{
    if name.is_empty() || name.len() > TENANT_MAX {
        return false;
    }
    name.iter().all(|byte| is_tenant_byte(*byte))
}

// Whether `byte` can stand in a tenant's name.
fn is_tenant_byte(byte: u8) -> bool
    ensures { result ≡ is_tenant_byte byte }
{
    byte.is_ascii_lowercase() || byte.is_ascii_digit() || byte == b'-'
}
