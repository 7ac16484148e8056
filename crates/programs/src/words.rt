ghost use Rattle.std.specs.Prelude.{◌≡◌, ◌↔◌, [], ◌∷◌, map, string_bytes, codes, IsTrue};

/// Whether the arguments of a program are this word alone.
pub fn is_only(args: &[String], word: &str) -> bool
    ensures { IsTrue result ↔ (map string_bytes args.now ≡ word.now ∷ []) }
{
    match args {
        [only] => only.as_str() == word,
        _ => false,
    }
}

/// Whether the arguments of a program ask for help: `--help` alone.
pub fn asks_for_help(args: &[String]) -> bool
    ensures { IsTrue result ↔ (map string_bytes args.now ≡ codes "--help" ∷ []) }
{
    is_only(args, "--help")
}
