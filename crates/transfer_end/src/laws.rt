//! What holds of the moves of an end. These functions do nothing; their clauses are the law.
ghost use Rattle.transfer_end.specs.Came.{LastStaysAcked, MovesCame, MovesPostTwo};
ghost use Rattle.transfer_end.specs.Came.{PostsAckWhatCame, TakenBlocksCame, TakenWasGot};
ghost use Rattle.transfer_end.specs.FirstPosts.{MovesPostInOrder};
ghost use Rattle.transfer_end.specs.Laws.{AcknowledgesTaken, EndIsOfLink, MovesCountUp};
ghost use Rattle.transfer_end.specs.Laws.{SendsNextBlock, TakenIsLent, ViewFollows, ViewsFollow};
ghost use Rattle.transfer_end.specs.OtherEnds.{MovesStayFair, ReceivesWhatWasSent};

/// What an end keeps is what is kept of its log, whatever moves it makes. So what it posts, which
/// follows from what it keeps, follows from the log. `proofs/ViewLemmas.antt` says the same to
/// proofs.
pub fn an_end_follows_its_log()
    ensures one_move { ViewFollows }
    ensures moves { ViewsFollow }
{}

/// What arrives of a file is what its end of the transfer lends.
pub fn what_arrives_is_lent()
    ensures { TakenIsLent }
{}

/// What RFC 1350 asks of both ends, packet by packet.
pub fn blocks_go_out_in_their_order()
    // The laws of tftp_link, which speak of all packets of a transfer, apply to the transfers of a
    // log.
    ensures of_link { EndIsOfLink }
    // A packet is answered with the block after the one sent last, or with nothing.
    ensures next { SendsNextBlock }
    // What is acknowledged is what was taken last.
    ensures taken { AcknowledgesTaken }
{}

/// A side's own ports strictly rise, and none serves two transfers.
pub fn own_ports_count_up()
    ensures { MovesCountUp }
{}

/// What is in a transfer came from its other end, and a block that was taken came as DATA before it
/// is acknowledged. `proofs/CameLemmas.antt` says the same to proofs.
pub fn what_was_taken_came()
    // A receiving end takes blocks from the packets that it gets.
    ensures got { TakenWasGot }
    // After any moves, all packets of all transfers came.
    ensures moves { MovesCame }
    // So each block that was taken last came.
    ensures blocks { TakenBlocksCame }
{}

/// An acknowledgement of a block goes out only after the DATA of that number came, from where the
/// acknowledgement goes. `proofs/AckLemmas.antt` says the same to proofs.
pub fn what_is_acknowledged_came()
    // Of all that a side posts at an event, where so it is of what it posted last.
    ensures posts { PostsAckWhatCame }
    // And so it is of what it posted last then.
    ensures last { LastStaysAcked }
{}

/// Whatever moves a side makes at an event, it posts at most two datagrams.
/// `proofs/PostedLemmas.antt` says the same to proofs.
pub fn two_datagrams_at_most()
    ensures { MovesPostTwo }
{}

/// What a side receives in a transfer is what the transfer's other end sent, wherever the datagrams
/// of each side were posted by the other: each block that came is that block of its file, in the
/// block size that both ends hold, and a file that was received whole is the file that was sent.
/// `proofs/ReceivedLemmas.antt` says the latter to proofs.
pub fn what_comes_was_sent()
    // Whatever moves a side makes, each transfer goes on as it began: one end asked, the other
    // serves it, and the packets of each are what the other sent to it.
    ensures moves { MovesStayFair }
    // So what is received was sent.
    ensures receives { ReceivesWhatWasSent }
{}

/// Whatever moves a side makes at an event that is no tick, in each transfer in which it sends a
/// file its request or OACK goes out from its own port, and then blocks 1, 2, 3 .. of the file,
/// each once (RFC 1350, section 2).
pub fn blocks_are_first_posted_in_order()
    ensures { MovesPostInOrder }
{}
