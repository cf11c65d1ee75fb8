// Laws of addresses: the bytes that are one, as the table of section 6 of docs/RULES.md has them, and no others.
#![tactic(auto)]

ghost use Rattle.std.specs.Prelude.{◌≡◌, List, ℕ, Some};
ghost use Rattle.address.specs.Multiaddr.{parsed};
ghost use Rattle.address.specs.declared.Ip.{Ip};
ghost use Rattle.address_laws.specs.Bytes.{Stands};

// Bytes that stand for an IP and a port are read as these, and what is read as these stands for them.
pub fn address_by_the_rule()
    ensures read { (a : List ℕ) (ip : Ip) (port : ℕ) → Stands a ip port → parsed a ≡ Some (ip, port) }
    ensures only { (a : List ℕ) (ip : Ip) (port : ℕ) → parsed a ≡ Some (ip, port) → Stands a ip port }
{}
