// The call that the router makes, as C and Rust link it: librouter.a, under the name and the bytes of include/mustorgyel.h. A crate is
// a library or a static library, never both: what the call does stands in crate `router`, with its proof, and here is its name alone.
#![tactic(auto)]

ghost use Rattle.std.specs.Prelude.{◌≡◌};
ghost use Rattle.router.specs.Routed.{routed};

// 0 for a net and a legal placement of it, else the first refusal's number: the net file's, the placement file's, the placement's (RULES 6.21).
#[unsafe(no_mangle)]
pub extern "C" fn mustorgyel_check(net: &[u8], placement: &[u8]) -> u32
    ensures { result ≡ routed net.now placement.now }
{
    router::mustorgyel_check(net, placement)
}
