//! Arguments that begin like an option and are none, such as `-h.hgt`.

ghost use Rattle.std.specs.Prelude.{◌≡◌, map, option_map, string_bytes};
ghost use Rattle.drain_args.specs.Clusters.{ends_options, first_cluster, is_cluster};

/// The first argument of one hyphen, another byte and more, unless `--` or a request for help or the version comes
/// before it.
///
/// `clap` reads each byte of such an argument as an option of one letter, and takes `-h.hgt` for `-h`. A file of this
/// name is written `./-h.hgt`.
pub fn first_cluster(words: &[String]) -> Option<&str>
    ensures { option_map (λ word. word.now) result ≡ first_cluster (map string_bytes words.now) }
{
    for word in words {
        if is_cluster(word.as_bytes()) {
            return Some(word.as_str());
        }
        if ends_options(word.as_str()) {
            return None;
        }
    }
    None
}

fn is_cluster(word: &[u8]) -> bool
    ensures { result ≡ is_cluster word.now }
{
    word.len() > 2 && word[0] == b'-' && word[1] != b'-'
}

fn ends_options(word: &str) -> bool
    ensures { result ≡ ends_options word.now }
{
    word == "--" || word == "-h" || word == "--help" || word == "-V" || word == "--version"
}
