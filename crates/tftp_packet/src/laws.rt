//! What holds of packets and the bytes that spell them.
ghost use Rattle.std.specs.Prelude.{◌≡◌, ◌↔◌, ◌≤◌, ℕ, List, length, Ok};
ghost use Rattle.field_grammar.specs.Answers.{answer};
ghost use Rattle.field_grammar.specs.Grammar.{IsBytes, IsDecided, Spelled};
ghost use Rattle.tftp_packet.specs.Packets.{PacketView, IsARequest, IsInRange, IsTyped};
ghost use Rattle.tftp_packet.specs.Packets.{PacketSpells, packet, packet_bytes};

/// Laws of the format, for callers that compare packets and their bytes.
pub fn packet_laws()
    // Whatever the bytes, they spell one packet, or fail with one fault, and never both.
    ensures decided { (bytes : List ℕ) → IsBytes bytes → IsDecided packet bytes }
    // The format says of bytes what the options, texts and numbers in them say.
    ensures spelled { (p : PacketView) (bytes : List ℕ)
        → Spelled packet bytes p ↔ PacketSpells p bytes }
    // Bytes spell one packet. A request has several spellings.
    ensures one_packet { (p q : PacketView) (bytes : List ℕ) → PacketSpells p bytes
        → PacketSpells q bytes → p ≡ q }
    // What is spelled is in its range.
    ensures in_range { (p : PacketView) (bytes : List ℕ) → PacketSpells p bytes → IsInRange p }
    // The bytes that are sent for a packet in its range spell it, and are read as it.
    ensures written { (p : PacketView) → IsTyped p → IsInRange p → PacketSpells p (packet_bytes p) }
    // A request that is sent has at most 116 bytes, of the 512 that RFC 2347 allows.
    ensures short_requests { (p : PacketView) → IsTyped p → IsInRange p → IsARequest p
        → length (packet_bytes p) ≤ 116 }
    ensures read_again { (p : PacketView) → IsTyped p → IsInRange p
        → answer packet (packet_bytes p) ≡ Ok p }
{}
