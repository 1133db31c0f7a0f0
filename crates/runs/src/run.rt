// A run of TTLV items, as a type.

ghost use Rattle.std.specs.Prelude.{◌≡◌, true};
ghost use Rattle.ttlv.specs.Tree.{is_run};

// Bytes that are a run of items by the rules.
#[derive(Clone, Copy)]
pub struct Run<'a> {
    pub bytes: &'a [u8],
    pub ghost run: { is_run bytes.now ≡ true },
}
