// A run of TTLV items in lent bytes, read field by field: each reader gives what stands first and
// the run behind it, or none if something else stands there. It knows nothing of keys.
#![tactic(auto)]

mod run;

ghost use Rattle.std.specs.Prelude.{◌≡◌, true, option_map};
ghost use Rattle.ttlv.specs.Items.{ended};
ghost use Rattle.ttlv.specs.Tree.{tree_of};
ghost use Rattle.ttlv_types.specs.Types.{is_word};
ghost use Rattle.fields.specs.Fields.{starts_with, number_of, bytes_of, body_of};
ghost use Rattle.runs.specs.Runs.{is_number, is_there, behind, bytes_read, body_read};

pub use run::Run;

// A type stays a number, as in `fields`: `bytes` looks for any, `number` and `word` for one whose
// values are numbers, or numbers of four bytes.

impl<'a> Run<'a> {
    // Whether no item is left.
    pub fn is_empty(self) -> bool
        ensures { result ≡ ended (tree_of self.entry.bytes.now) }
    {
        self.bytes.is_empty()
    }

    // Nothing, where no item is left.
    pub fn end(self) -> Option<()>
        ensures { is_there result ≡ ended (tree_of self.entry.bytes.now) }
    {
        self.is_empty().then_some(())
    }

    // Whether the first item has this tag.
    pub fn starts_with(self, tag: u32) -> bool
        ensures { result ≡ starts_with tag (tree_of self.entry.bytes.now) }
    {
        fields::starts_with(self.bytes, tag)
    }

    // The number of the first item, which has this tag and type, and the run behind it.
    pub fn number(self, tag: u32, kind: u8) -> Option<(u64, Run<'a>)>
        requires { is_number kind ≡ true }
        ensures { option_map behind result ≡ number_of tag kind (tree_of self.entry.bytes.now) }
    {
        let (value, next) = fields::number_field(self.bytes, tag, kind)?;
        let bytes = &self.bytes[next..];
        Some((value, Run { bytes }))
    }

    // The same as 32 bits, of a type whose values have four bytes.
    pub fn word(self, tag: u32, kind: u8) -> Option<(u32, Run<'a>)>
        requires { is_word kind ≡ true }
        ensures { option_map behind result ≡ number_of tag kind (tree_of self.entry.bytes.now) }
    {
        let (value, rest) = self.bytes(tag, kind)?;
        Some((octets::number(value) as u32, rest))
    }

    // The value of the first item, which has this tag and type, and the run behind it.
    pub fn bytes(self, tag: u32, kind: u8) -> Option<(&'a [u8], Run<'a>)>
        ensures { option_map bytes_read result ≡ bytes_of tag kind (tree_of self.entry.bytes.now) }
    {
        let (len, next) = fields::bytes_field(self.bytes, tag, kind)?;
        let stop = 8 + len;
        let value = &self.bytes[8..stop];
        let bytes = &self.bytes[next..];
        Some((value, Run { bytes }))
    }

    // The items of the first item, a structure with this tag, and the run behind it.
    pub fn body(self, tag: u32) -> Option<(Run<'a>, Run<'a>)>
        ensures { option_map body_read result ≡ body_of tag (tree_of self.entry.bytes.now) }
    {
        let next = fields::body_field(self.bytes, tag)?;
        let inner = &self.bytes[8..next];
        let bytes = &self.bytes[next..];
        Some((Run { bytes: inner }, Run { bytes }))
    }
}
