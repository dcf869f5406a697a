//! Laws of replies. Each is the contract of a function that does nothing.

ghost use Rattle.std.specs.Prelude.{◌≡◌, ◌≤◌, ◌^◌, ◌∷◌, ◌++◌, [], ℕ, Bool, false, List, length, take, Some, None};
ghost use Rattle.domain_text.specs.Names.{IsName};
ghost use Rattle.dns_message.specs.Edns.{edns_of_reply, opt_text};
ghost use Rattle.dns_message.specs.Limits.{limit_of, most_of};
ghost use Rattle.dns_message.specs.Header.{header_text, flags_of_reply};
ghost use Rattle.dns_message.specs.Query.{Query, question_text};
ghost use Rattle.dns_message.specs.Query.Reading.{Dropped};
ghost use Rattle.dns_message.specs.Reading.{reading_of};
ghost use Rattle.dns_message.specs.Holding.{Holds};
ghost use Rattle.dns_message.specs.Replies.{Contents, header_by, extended_of, reply_text, bad_version_text, bare_text};
ghost use Rattle.dns_message.specs.ReplyLaws.{IsHeaded, EndsWith};
ghost use Rattle.dns_message.specs.declared.edns.Edns.{Edns};
ghost use Rattle.dns_message.specs.declared.transport.Transport.{Transport};
ghost use Rattle.dns_message.specs.declared.transport.Transport.TheVariants.{Udp, Tcp};
ghost use Rattle.dns_message.specs.declared.numbers.TheConstants.{HEADER_SIZE, LEAST_LIMIT, GREATEST_LIMIT, TIME_TO_LIVE, CLASS_IN, FIXED_SIZE, TYPE_AND_CLASS_SIZE, POINTER, QR, OPCODE, AA, TC, RD, QUERY, OPT, OPT_SIZE, EDNS_SIZE, EDNS_VERSION, DO};
ghost use Rattle.dns_message.specs.declared.rcode.TheConstants.{NOERROR, FORMERR, SERVFAIL, NXDOMAIN, NOTIMP, REFUSED, YXDOMAIN, BADVERS};
ghost use Rattle.dns_message.specs.declared.reply.Reply.{Reply};

/// Of the buffer of a reply that is being written only its room and the bytes at its front count, which the call before
/// left.
pub fn same_front()
    ensures { (t : Contents) (r : Reply) (old new : List ℕ) → Holds t r old → r.limit ≤ length new
        → take r.len new ≡ take r.len old → Holds t r new }
{}

/// A reply keeps its limit, and gets no reply itself: two servers never answer each other.
pub fn replies_end()
    ensures within { (limit : ℕ) (t : Contents) (rcode : ℕ) (aa : Bool) → LEAST_LIMIT ≤ limit
        → IsName t.query.name → length (reply_text limit t rcode aa) ≤ limit }
    ensures dropped { (limit : ℕ) (t : Contents) (rcode : ℕ) (aa : Bool)
        → reading_of (reply_text limit t rcode aa) ≡ Dropped }
    ensures bare_dropped { (id flags rcode : ℕ) → reading_of (bare_text id flags rcode) ≡ Dropped }
    ensures bad_version_within { (q : Query) → IsName q.name → length (bad_version_text q) ≤ LEAST_LIMIT }
    ensures bad_version_dropped { (q : Query) → reading_of (bad_version_text q) ≡ Dropped }
{}

/// A reply has the ID and the question of its query, and the AA and the RCODE that it was given, also where it is truncated.
pub fn replies_are_headed()
    ensures { (limit : ℕ) (t : Contents) (rcode : ℕ) (aa : Bool) → IsHeaded t.query rcode aa (reply_text limit t rcode aa) }
{}

/// A reply has an OPT record exactly where its query has one, also where it is truncated (RFC 6891, 6.1.1 and 7).
pub fn opt_where_asked()
    ensures asked { (limit : ℕ) (t : Contents) (rcode : ℕ) (aa : Bool) (e : Edns) → t.query.edns ≡ Some e
        → EndsWith 1 (opt_text (edns_of_reply e) (extended_of rcode) 0 []) (reply_text limit t rcode aa) }
    ensures not_asked { (limit : ℕ) (t : Contents) (rcode : ℕ) (aa : Bool) → t.query.edns ≡ None
        → EndsWith 0 [] (reply_text limit t rcode aa) }
    // The one of BADVERS has RCODE 0 and the extended RCODE 1.
    ensures bad_version { (q : Query) (e : Edns) → q.edns ≡ Some e
        → bad_version_text q ≡ header_text (header_by q.id (flags_of_reply q.flags false false 0) 0 0 1) ++ (question_text q ++ opt_text (edns_of_reply e) 1 0 []) }
    ensures size { (e : Edns) (extended : ℕ) → length (opt_text (edns_of_reply e) extended 0 []) ≡ 11 }
{}

/// The limit of a reply may be given to it, and is the one of the transport (RFC 1035, 4.2; RFC 6891, 6.2.5).
pub fn limits_are_kept()
    ensures least { (transport : Transport) (q : Query) → LEAST_LIMIT ≤ limit_of transport q }
    ensures most { (transport : Transport) (q : Query) → limit_of transport q ≤ most_of transport }
    ensures greatest { (transport : Transport) → most_of transport ≤ GREATEST_LIMIT }
    ensures without_opt { (q : Query) → q.edns ≡ None → limit_of Udp q ≡ 512 }
    ensures over_udp { most_of Udp ≡ 1232 }
    ensures over_tcp { (q : Query) → limit_of Tcp q ≡ 65535 }
{}

/// The numbers that definitions cite by their names: of a message (RFC 1035, 4.1 and 4.2), of the fields of its flags and of
/// the RCODEs (RFC 1035, 4.1.1; RFC 6672, 2.2; RFC 6891, 9), of EDNS (RFC 6891, 6.1), and how long this server's records may
/// be kept.
pub fn numbers_of_messages()
    ensures sizes { (HEADER_SIZE ≡ 12) × (FIXED_SIZE ≡ 10) × (TYPE_AND_CLASS_SIZE ≡ 4) }
    ensures limits { (LEAST_LIMIT ≡ 512) × (GREATEST_LIMIT ≡ 65535) }
    ensures pointer { POINTER ≡ 192 ∷ 12 ∷ [] }
    ensures class { CLASS_IN ≡ 1 }
    ensures kept { TIME_TO_LIVE ≡ 600 }
    ensures flags { (QR ≡ 32768) × (OPCODE ≡ 2048) × (AA ≡ 1024) × (TC ≡ 512) × (RD ≡ 256) }
    ensures query { QUERY ≡ 0 }
    ensures rcodes { (NOERROR ≡ 0) × (FORMERR ≡ 1) × (SERVFAIL ≡ 2) × (NXDOMAIN ≡ 3) × (NOTIMP ≡ 4) × (REFUSED ≡ 5) × (YXDOMAIN ≡ 6) × (BADVERS ≡ 16) }
    ensures edns { (OPT ≡ 41) × (OPT_SIZE ≡ 11) × (EDNS_SIZE ≡ 1232) × (EDNS_VERSION ≡ 0) × (DO ≡ 2 ^ 15) }
{}
