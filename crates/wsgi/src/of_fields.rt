//! The variables of fields.
ghost use Rattle.std.specs.Prelude.{◌≡◌, ◌++◌, ◌∷◌, [], OnOk};
ghost use Rattle.wsgi.specs.Environ as spec;

use crate::Environ;
use proxy_trust::KeptField;
use std::alloc::AllocError;

const OF_BODY: [&[u8]; 3] = [b"content-type", b"content-length", b"transfer-encoding"];

fn is_of_body(name: &[u8]) -> bool
    ensures { result ≡ spec.is_of_body name.now }
{
    OF_BODY.iter().any(|other| name == *other)
}

fn add_field(environ: &mut Environ, field: &KeptField<'_>) -> Result<(), AllocError>
    ensures { OnOk result (environ.new ≡ environ.old ++ spec.field_variables (field.now ∷ [])) }
{
    if is_of_body(field.name()) {
        return Ok(());
    }
    environ.add_field(field.name(), field.value())
}

/// Adds the variables of the fields that say nothing of the body.
pub(crate) fn add_fields(environ: &mut Environ, fields: &[KeptField<'_>]) -> Result<(), AllocError>
    ensures { OnOk result (environ.new ≡ environ.old ++ spec.field_variables fields.now) }
{
    for field in fields {
        add_field(environ, field)?;
    }
    Ok(())
}
