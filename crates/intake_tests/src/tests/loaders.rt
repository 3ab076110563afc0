//! Sessions as another program spoke them, datagram by datagram.
use exchange_trace::Datagram;
use load_base::{Ident, MemHost, NoMemory, PartText};
use loader_machine::{Loader, Outcome, Posts, Session};
use media_check::{MediaSet, open_set};
use std::alloc::Global;
use std::test::Fail;
use worked_files::{ACK_0, ACK_1, ASKS_LCI, ASKS_LCL, ASKS_LCS, LCI, LCL, LCS};

/// A set without lists.
fn no_media(alloc: Global) -> Result<MediaSet, Fail> {
    let mut host = MemHost::new(alloc);
    let opened = open_set(alloc, &mut host, b"P");
    drop(host);
    match opened {
        Ok(set) => Ok(set),
        Err(fault) => {
            drop(fault);
            Err(Fail::new("the set wasn't opened"))
        }
    }
}

fn ident(bytes: &[u8]) -> Result<Ident, Fail> {
    match Ident::read(bytes) {
        Ok(ident) => Ok(ident),
        Err(_) => Err(Fail::new("no Ident")),
    }
}

/// What is posted: from one port to another, these bytes.
type Post<'a> = (u16, u16, &'a [u8]);

const NONE: Post<'static> = (0, 0, b"");

fn is_post(post: &Option<Datagram>, expected: Post<'_>) -> bool {
    match post {
        Some(datagram) => {
            (datagram.from, datagram.to) == (expected.0, expected.1)
                && datagram.bytes.as_slice() == expected.2
        }
        None => expected.2.is_empty(),
    }
}

/// How many of these datagrams, one after the other, are answered so.
fn answered(loader: &mut Loader<'_>, rows: &[(u16, u16, &[u8], Post<'_>)]) -> usize {
    for (i, (from, to, bytes, post)) in rows.iter().enumerate() {
        if !is_answered(loader.on_datagram(*from, *to, bytes), *post) {
            return i;
        }
    }
    rows.len()
}

fn is_answered(posts: Result<Posts, NoMemory>, post: Post<'_>) -> bool {
    match posts {
        Ok(posts) => {
            let is_posted = is_post(&posts.first, post) && is_post(&posts.second, NONE);
            drop(posts);
            is_posted
        }
        refused => {
            drop(refused);
            false
        }
    }
}

/// A letter for what a session came to.
fn letter(session: &Session) -> u8 {
    match (&session.outcome, &session.listed) {
        (Outcome::Completed, Some(_)) => b'c',
        (Outcome::NotOnMedia(_), None) => b'n',
        (Outcome::TooMany, None) => b'm',
        (Outcome::Replaced, None) => b'r',
        (Outcome::GaveUp, None) => b'g',
        (Outcome::Open, None) => b'o',
        _ => b'?',
    }
}

fn letters(sessions: &[Session]) -> [u8; 4] {
    let mut letters = [b'.'; 4];
    for (place, session) in letters.iter_mut().zip(sessions) {
        *place = letter(session);
    }
    letters
}

const ROWS: [(u16, u16, &[u8], Post<'static>); 7] = [
    (1024, 1024, LCI, (1024, 1024, ACK_1)),
    (1025, 59, ASKS_LCS, (1025, 1025, ACK_0)),
    (1025, 1025, LCS, (1025, 1025, ACK_1)),
    // The last block comes again.
    (1025, 1025, LCS, (1025, 1025, ACK_1)),
    // A request from a port that isn't above the mark starts nothing.
    (1025, 59, ASKS_LCL, NONE),
    (1026, 59, ASKS_LCL, (1026, 1026, ACK_0)),
    (1026, 1026, LCL, (1026, 1026, ACK_1)),
];

/// An information session, and what it came to.
fn spoken(alloc: Global, media: &MediaSet, hw: Ident, pos: Ident) -> (bool, usize, [u8; 4]) {
    let mut loader = Loader::new(alloc, media);
    let asks = is_answered(loader.start_info(hw, pos), (1024, 59, ASKS_LCI));
    let rows = answered(&mut loader, &ROWS);
    let letters = letters(loader.sessions().as_slice());
    drop(loader);
    (asks, rows, letters)
}

#[test]
fn an_information_session_goes_by_its_rows(rt: HostRuntime) -> Result<(), Fail> {
    let (hw, pos) = (ident(b"HW1")?, ident(b"L")?);
    let media = no_media(rt.alloc())?;
    let found = spoken(rt.alloc(), &media, hw, pos);
    drop(media);
    assert_eq!(rt; found, (true, 7, *b"c..."));
    Ok(())
}

/// How many of six ticks repeat the request.
fn repeated(loader: &mut Loader<'_>) -> usize {
    let mut repeats = 0usize;
    for _ in 0..6 {
        if is_answered(loader.on_tick(), (1025, 59, ASKS_LCI)) {
            repeats = repeats.saturating_add(1);
        }
    }
    repeats
}

/// Two uploads that can't begin, and two information sessions, of which the second is given up.
fn given_up(
    alloc: Global,
    media: &MediaSet,
    hw: Ident,
    pos: Ident,
    part: PartText,
) -> (bool, usize, [u8; 4]) {
    let mut loader = Loader::new(alloc, media);
    let one = is_answered(loader.start_upload(hw, pos, &[part]), NONE);
    let many = is_answered(loader.start_upload(hw, pos, &[part; 33]), NONE);
    let first = is_answered(loader.start_info(hw, pos), (1024, 59, ASKS_LCI));
    let second = is_answered(loader.start_info(hw, pos), (1025, 59, ASKS_LCI));
    let repeats = repeated(&mut loader);
    let began = one && many && first && second && !loader.waits();
    let sessions = loader.into_sessions();
    let letters = letters(sessions.as_slice());
    drop(sessions);
    (began, repeats, letters)
}

#[test]
fn sessions_are_refused_replaced_and_given_up(rt: HostRuntime) -> Result<(), Fail> {
    let (hw, pos) = (ident(b"HW1")?, ident(b"L")?);
    let Ok(part) = PartText::read(b"ABC41-0000-0001") else {
        return Err(Fail::new("no part number"));
    };
    let media = no_media(rt.alloc())?;
    let found = given_up(rt.alloc(), &media, hw, pos, part);
    drop(media);
    assert_eq!(rt; found, (true, 5, *b"nmrg"));
    Ok(())
}
