//! A request head.
ghost use Rattle.std.specs.Prelude.{◌≡◌};
ghost use Rattle.head_grammar.specs.Verdict.{head_of};

use crate::framing::{closes, expects};
use crate::request_line::RequestLine;
use crate::{FieldList, Fields, Framing, Version};
use std::marker::Model;

/// A request head. It takes a few allocations, however many fields it has.
#[derive(Debug, Drop)]
pub struct Head {
    line: RequestLine,
    fields: FieldList,
    framing: Framing,
    expects: bool,
    closes: bool,
    size: u64,
}

impl Model for Head {
    ghost use Rattle.head_grammar.specs.Heads.{Head};

    ghost Value = { Head };

    ghost view = { λ head. record {
      method = head.line.method;
      target = head.line.target;
      path = head.line.path;
      query = head.line.query;
      version = head.line.version;
      fields = head.fields;
      framing = head.framing;
      expects = head.expects;
      closes = head.closes;
      size = head.size;
    } };
}

impl Head {
    /// The head with this line and these fields.
    pub(crate) fn new(line: RequestLine, fields: FieldList, framing: Framing, size: u64) -> Head
        ensures { result ≡ head_of line fields framing size }
    {
        let expects = expects(line.version(), &fields.fields(), framing);
        let closes = closes(line.version(), &fields.fields());
        Head {
            line,
            fields,
            framing,
            expects,
            closes,
            size,
        }
    }

    pub fn method(&self) -> &[u8]
        ensures { result.now ≡ self.now.method }
    {
        self.line.method()
    }

    /// As it was sent.
    pub fn target(&self) -> &[u8]
        ensures { result.now ≡ self.now.target }
    {
        self.line.target()
    }

    pub fn path(&self) -> &[u8]
        ensures { result.now ≡ self.now.path }
    {
        self.line.path()
    }

    pub fn query(&self) -> &[u8]
        ensures { result.now ≡ self.now.query }
    {
        self.line.query()
    }

    pub fn version(&self) -> Version
        ensures { result ≡ self.now.version }
    {
        self.line.version()
    }

    /// Their names are in lower case, and differ.
    pub fn fields(&self) -> Fields<'_>
        ensures { result ≡ self.now.fields }
    {
        self.fields.fields()
    }

    pub fn framing(&self) -> Framing
        ensures { result ≡ self.now.framing }
    {
        self.framing
    }

    /// Whether the client waits for `100 Continue`.
    pub fn expects(&self) -> bool
        ensures { result ≡ self.now.expects }
    {
        self.expects
    }

    /// Whether the connection closes behind the response.
    pub fn closes(&self) -> bool
        ensures { result ≡ self.now.closes }
    {
        self.closes
    }

    /// How many bytes the whole head has.
    pub fn size(&self) -> u64
        ensures { result ≡ self.now.size }
    {
        self.size
    }
}
