//! Laws of links, for callers and readers. The function does nothing; its clauses are the law.
ghost use Rattle.std.specs.Prelude.{◌∷◌, [], List, Bool, Some};
ghost use Rattle.exchange_trace.specs.declared.trace.Side.{Side};
ghost use Rattle.exchange_trace.specs.declared.trace.Side.TheVariants as sides;
ghost use Rattle.exchange_trace.specs.Following.{plan_of};
ghost use Rattle.exchange_trace.specs.Happenings.{DatagramView, HappeningView};
ghost use Rattle.exchange_trace.specs.Lines.{Line};
ghost use Rattle.exchange_trace.specs.Steps.{Note, Step, with_given, with_note, with_post};
ghost use Rattle.link_net.specs.Followed.{HasFollowed};
ghost use Rattle.link_net.specs.Links.{LinkGives, LinkState, scene_of, with_posted};

/// Who hands a link that follows a script all that the sides post, and tells it which of them wait,
/// gets a trace that follows the script.
pub fn a_link_follows_its_script()
    ensures start { (waiting : Side → List Step → Bool) (script : List Line)
        → HasFollowed waiting script []
        (record { posted = []; given = []; plan = Some (plan_of script) }) }
    ensures next { (waiting : Side → List Step → Bool) (script : List Line) (steps : List Step)
        (old new : LinkState) (h : HappeningView)
        → HasFollowed waiting script steps old
        → LinkGives old new
        (scene_of old (waiting sides.Loader steps) (waiting sides.Target steps)) h
        → HasFollowed waiting script (with_given steps h) new }
    ensures post { (waiting : Side → List Step → Bool) (script : List Line) (s : Step)
        (earlier : List Step) (link : LinkState) (d : DatagramView)
        → HasFollowed waiting script (s ∷ earlier) link
        → HasFollowed waiting script (with_post (s ∷ earlier) d) (with_posted link d) }
    ensures note { (waiting : Side → List Step → Bool) (script : List Line) (s : Step)
        (earlier : List Step) (link : LinkState) (n : Note)
        → HasFollowed waiting script (s ∷ earlier) link
        → HasFollowed waiting script (with_note (s ∷ earlier) n) link }
{}
