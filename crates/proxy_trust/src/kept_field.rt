//! A field that stays.
ghost use Rattle.std.specs.Prelude.{◌≡◌};
ghost use Rattle.proxy_trust.specs.KeptFields.{value_of};

use outside::Bytes;
use std::marker::Model;

#[derive(Debug, Drop)]
pub(crate) enum KeptValue<'a> {
    /// As the head has it.
    Sent(&'a [u8]),
    /// What is believed of it.
    Told(Bytes),
}

impl<'a> KeptValue<'a> {
    fn as_slice(&self) -> &[u8]
        ensures { result.now ≡ value_of self.now }
    {
        match self {
            KeptValue::Sent(value) => value,
            KeptValue::Told(value) => value.as_slice(),
        }
    }
}

/// A field that stays. What wasn't touched of it is read from the head.
#[derive(Debug, Drop)]
pub struct KeptField<'a> {
    name: &'a [u8],
    value: KeptValue<'a>,
}

impl<'a> Model for KeptField<'a> {
    ghost use Rattle.head_grammar.specs.declared.types.Field.{Field};
    ghost use Rattle.proxy_trust.specs.KeptFields.{value_of};

    ghost Value = { Field };

    ghost view = { λ field. record { name = field.name.now; value = value_of field.value } };
}

impl<'a> KeptField<'a> {
    pub(crate) fn sent(name: &'a [u8], value: &'a [u8]) -> KeptField<'a>
        ensures { result ≡ record { name = name.now; value = value.now } }
    {
        KeptField {
            name,
            value: KeptValue::Sent(value),
        }
    }

    pub(crate) fn told(name: &'a [u8], value: Bytes) -> KeptField<'a>
        ensures { result ≡ record { name = name.now; value = value } }
    {
        KeptField {
            name,
            value: KeptValue::Told(value),
        }
    }

    pub fn name(&self) -> &[u8]
        ensures { result.now ≡ self.now.name }
    {
        self.name
    }

    pub fn value(&self) -> &[u8]
        ensures { result.now ≡ self.now.value }
    {
        self.value.as_slice()
    }
}
