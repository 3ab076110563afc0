//! What holds of a transfer of which nothing is lost. These functions do nothing; their clauses are
//! the law.
ghost use Rattle.transfer_completion.specs.Laws.{BehindIsStale, FinishedIsWhole, PastIsQuiet};
ghost use Rattle.transfer_completion.specs.Laws.{PastRequestIsSpent, ReadingBegins};
ghost use Rattle.transfer_completion.specs.Laws.{ReceiverGoesOn, RequestsAreRead, SenderGoesOn};
ghost use Rattle.transfer_completion.specs.Laws.{TakenIsSmall, TalkIsRead, WritingBegins};
ghost use Rattle.transfer_completion.specs.Retries.{MovesDoTheSame};
ghost use Rattle.transfer_completion.specs.Steps.{AsksFromRest, Binds, BindsWithTheLast};
ghost use Rattle.transfer_completion.specs.Steps.{MovesItsTransfer};
ghost use Rattle.transfer_completion.specs.Steps.{LastIsAcknowledged, MorePosts, ServesFromRest};
ghost use Rattle.transfer_completion.specs.Steps.{TakesTheLast};

/// The packet that is on its way between the two ends of a transfer moves the end that gets it, and
/// what that end sends then is on its way; so block after block, with or without options, until the
/// last block is acknowledged.
pub fn a_packet_on_its_way_moves_its_transfer()
    ensures receiver { ReceiverGoesOn }
    ensures sender { SenderGoesOn }
    // The first answer to a request is on its way, whatever block size was told, also where the
    // file doesn't fit it.
    ensures reading { ReadingBegins }
    ensures writing { WritingBegins }
    // With the last block the file is whole.
    ensures whole { FinishedIsWhole }
    ensures small { TakenIsSmall }
{}

/// What is on its way is read as what was sent, and so is the request of a named file.
/// `proofs/TalkLemmas.antt` says the same to proofs.
pub fn what_is_on_its_way_is_read()
    ensures packets { TalkIsRead }
    ensures requests { RequestsAreRead }
{}

/// What came to an end of a transfer before is dropped, or is no acknowledgement and answered with
/// the last one. `proofs/StaleLemmas.antt` says the same to proofs.
pub fn what_came_before_is_stale()
    ensures { BehindIsStale }
{}

/// Whatever was posted to an end before the datagram that is next there, in this transfer or an
/// earlier one, changes nothing there: nothing answers it, or one datagram that was posted before
/// and has less weight. `proofs/PastLemmas.antt` says the same to proofs.
pub fn what_was_posted_before_changes_nothing()
    ensures packet { PastIsQuiet }
    // A request among it comes from a port that was accepted, or while the end is busy.
    ensures request { PastRequestIsSpent }
{}

/// How an end stands after each move of a session of which nothing is lost, where transfer i has
/// the i-th own port of either end. `proofs/MoveLemmas.antt` says the same to proofs.
pub fn ends_go_from_transfer_to_transfer()
    // From one transfer to the next.
    ensures asks { AsksFromRest }
    ensures serves { ServesFromRest }
    // In a transfer.
    ensures binds { Binds }
    ensures goes_on { MovesItsTransfer }
    // Its end.
    ensures takes_last { TakesTheLast }
    ensures binds_last { BindsWithTheLast }
    ensures acknowledged { LastIsAcknowledged }
    // What else is posted changes nothing of it.
    ensures more { MorePosts }
{}

/// But for ticks, an end does and posts the same whatever its retries are.
/// `proofs/RetryLemmas.antt` says the same to proofs.
pub fn retries_matter_at_ticks_alone()
    ensures { MovesDoTheSame }
{}
