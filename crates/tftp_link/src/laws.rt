//! What holds of a transfer, whatever packets come. These functions do nothing.
ghost use Rattle.tftp_link.specs.Laws.{ServedWriteArrives, AskedReadArrives, ServedLastMakesWhole};
ghost use Rattle.tftp_link.specs.Laws.{AskedLastMakesWhole, ServedWriteAcknowledges};
ghost use Rattle.tftp_link.specs.Laws.{AskedReadAcknowledges, OneStands, ArrivesAsPrefix};
ghost use Rattle.tftp_link.specs.Laws.{ArrivesWhole, ServedReadSends, AskedWriteSends};
ghost use Rattle.tftp_link.specs.Laws.{DoneWithTheLastAck, OneCountStands, SendsItsFile};
ghost use Rattle.tftp_link.specs.Laws.{DuplicateAckIsDropped, OtherAckIsDropped};
ghost use Rattle.tftp_link.specs.Laws.{OackIsAcknowledgedAgain, LateOackIsDropped};
ghost use Rattle.tftp_link.specs.Laws.{ReceiverFailsAtError, SenderFailsAtError};

/// A receiving end lends what arrived, and tells when that is the whole file.
pub fn receiving_laws()
    // The payloads that an end lends, joined, are what arrived so far, and it knows their number.
    ensures served { ServedWriteArrives }
    ensures asked { AskedReadArrives }
    // Last comes exactly with the packet that makes the file whole.
    ensures served_last { ServedLastMakesWhole }
    ensures asked_last { AskedLastMakesWhole }
    // What it sent last is the ACK of the last block that arrived, and before that its first
    // packet.
    ensures served_sent { ServedWriteAcknowledges }
    ensures asked_sent { AskedReadAcknowledges }
{}

/// What arrives is of the file that was sent.
pub fn arrival_laws()
    // Only one list of payloads stands among packets.
    ensures one { OneStands }
    // Where each DATA k is block k of a file, what arrived so far is a prefix of it, and what
    // arrived whole is the file.
    ensures so_far { ArrivesAsPrefix }
    ensures whole { ArrivesWhole }
{}

/// A sending end sends the block after those that were acknowledged, and tells when all were.
pub fn sending_laws()
    // Each DATA that it sends is the block of its number of its file.
    ensures of_file { SendsItsFile }
    // The block sent last is the one after those that were acknowledged, or the last.
    ensures served { ServedReadSends }
    ensures asked { AskedWriteSends }
    // Done comes exactly with the packet with which all blocks are acknowledged.
    ensures done { DoneWithTheLastAck }
    // Only one count of blocks stands among packets.
    ensures one { OneCountStands }
{}

/// What packets that come again, early or late are to either end, and ERRORs.
pub fn repeat_laws()
    ensures duplicate_ack { DuplicateAckIsDropped }
    ensures other_ack { OtherAckIsDropped }
    // The OACK that answered a request is acknowledged again while no block was taken, and never
    // after.
    ensures oack_again { OackIsAcknowledgedAgain }
    ensures late_oack { LateOackIsDropped }
    // An ERROR ends a transfer that isn't over, and nothing else fails it.
    ensures receiver_fails { ReceiverFailsAtError }
    ensures sender_fails { SenderFailsAtError }
{}
