//! The law of the numbers that definitions of answers cite.

ghost use Rattle.std.specs.Prelude.{◌≡◌};
ghost use Rattle.bit_resolver.specs.declared.limits.TheConstants.{CLASS_IN, MOST_CNAMES, REFRESH, RETRY, EXPIRE, MINIMUM};
ghost use Rattle.bit_resolver.specs.declared.rr_type.TheConstants.{A, NS, CNAME, SOA, MX, TXT, AAAA, SRV, DNAME, DS, SSHFP, TLSA, IXFR, AXFR, ANY};

/// The numbers that definitions cite by their names: of TYPEs, QTYPEs and the class (each where its constant says), of the zone's
/// SOA (RFC 1035, 3.3.13), and how many CNAME records an answer has at most.
pub fn numbers_of_answers()
    ensures types { (A ≡ 1) × (NS ≡ 2) × (CNAME ≡ 5) × (SOA ≡ 6) × (MX ≡ 15) × (TXT ≡ 16) × (AAAA ≡ 28) × (SRV ≡ 33) }
    ensures more_types { (DNAME ≡ 39) × (DS ≡ 43) × (SSHFP ≡ 44) × (TLSA ≡ 52) }
    ensures queries { (IXFR ≡ 251) × (AXFR ≡ 252) × (ANY ≡ 255) }
    ensures class { CLASS_IN ≡ 1 }
    ensures start { (REFRESH ≡ 600) × (RETRY ≡ 600) × (EXPIRE ≡ 7200) × (MINIMUM ≡ 600) }
    ensures chase { MOST_CNAMES ≡ 8 }
{}
