// The calls of dhcpopt_profile for C, as a static library: each calls the library's function of its name, whose signature and clauses it has.
// Written by tests/exports.py.
#![tactic(auto)]

ghost use Rattle.std.specs.Prelude.{◌≡◌};
ghost use Rattle.options.specs.Profile.{profile};
ghost use Rattle.dhcpopt_profile.specs.Plain.{plain_profile};

use dhcpopt_profile::PlainProfile;

// Judges a reply. The message is walked once, to build its index; a code in pieces is then looked up by a walk of its own.
#[unsafe(no_mangle)]
pub extern "C" fn dhcpopt_profile(m: &[u8]) -> PlainProfile
    ensures { result ≡ plain_profile (profile m.now) }
{
    dhcpopt_profile::dhcpopt_profile(m)
}
