// The numbers of accepted words.
ghost use Rattle.std.specs.Prelude.{◌≡◌};
ghost use Rattle.run_words.specs.Asked.{number, IsShortNumber};

// The number that a text writes.
pub(crate) fn number_of(text: &str) -> u32
    requires { IsShortNumber text.now }
    ensures { result ≡ number text.now }
{
    text.parse::<u32>().unwrap()
}
