//! The words that begin a line.
ghost use Rattle.std.specs.Prelude.{◌≡◌};
ghost use Rattle.mail_conf.specs.Words.{is_for_calls, is_for_files, is_for_the_log, is_passed_over, list_word, number_word, path_word, text_word};

use ftn_addr::is_same_word;

/// A word that sets a text.
#[derive(Clone, Copy, Debug, PartialEq, Eq)]
pub(crate) enum TextWord {
    Sysname,
    Sysop,
    Location,
    Nodeinfo,
}

pub(crate) fn text_word(word: &[u8]) -> Option<TextWord>
    ensures { result ≡ text_word word.now }
{
    if is_same_word(word, b"sysname") {
        Some(TextWord::Sysname)
    } else if is_same_word(word, b"sysop") {
        Some(TextWord::Sysop)
    } else if is_same_word(word, b"location") {
        Some(TextWord::Location)
    } else if is_same_word(word, b"nodeinfo") {
        Some(TextWord::Nodeinfo)
    } else {
        None
    }
}

/// A word that sets a folder.
#[derive(Clone, Copy, Debug, PartialEq, Eq)]
pub(crate) enum PathWord {
    Inbound,
    InboundNonsecure,
}

pub(crate) fn path_word(word: &[u8]) -> Option<PathWord>
    ensures { result ≡ path_word word.now }
{
    if is_same_word(word, b"inbound") {
        Some(PathWord::Inbound)
    } else if is_same_word(word, b"inbound-nonsecure") {
        Some(PathWord::InboundNonsecure)
    } else {
        None
    }
}

/// A word that sets a number.
#[derive(Clone, Copy, Debug, PartialEq, Eq)]
pub(crate) enum NumberWord {
    Port,
    MaxServers,
    MaxClients,
    Block,
    RefuseOver,
    SessionLimit,
}

pub(crate) fn number_word(word: &[u8]) -> Option<NumberWord>
    ensures { result ≡ number_word word.now }
{
    if is_same_word(word, b"iport") {
        Some(NumberWord::Port)
    } else if is_same_word(word, b"maxservers") {
        Some(NumberWord::MaxServers)
    } else if is_same_word(word, b"maxclients") {
        Some(NumberWord::MaxClients)
    } else if is_same_word(word, b"oblksize") {
        Some(NumberWord::Block)
    } else if is_same_word(word, b"refuse-over") {
        Some(NumberWord::RefuseOver)
    } else if is_same_word(word, b"session-limit") {
        Some(NumberWord::SessionLimit)
    } else {
        None
    }
}

/// A word whose lines add up.
#[derive(Clone, Copy, Debug, PartialEq, Eq)]
pub(crate) enum ListWord {
    Domain,
    Address,
    Node,
    RefuseName,
    RequestFolder,
}

pub(crate) fn list_word(word: &[u8]) -> Option<ListWord>
    ensures { result ≡ list_word word.now }
{
    if is_same_word(word, b"domain") {
        Some(ListWord::Domain)
    } else if is_same_word(word, b"address") {
        Some(ListWord::Address)
    } else if is_same_word(word, b"node") {
        Some(ListWord::Node)
    } else if is_same_word(word, b"refuse-name") {
        Some(ListWord::RefuseName)
    } else if is_same_word(word, b"request-folder") {
        Some(ListWord::RequestFolder)
    } else {
        None
    }
}

fn is_for_the_log(word: &[u8]) -> bool
    ensures { result ≡ is_for_the_log word.now }
{
    is_same_word(word, b"log")
        || is_same_word(word, b"loglevel")
        || is_same_word(word, b"conlog")
        || is_same_word(word, b"percents")
        || is_same_word(word, b"printq")
        || is_same_word(word, b"backresolv")
}

fn is_for_calls(word: &[u8]) -> bool
    ensures { result ≡ is_for_calls word.now }
{
    is_same_word(word, b"rescan-delay")
        || is_same_word(word, b"call-delay")
        || is_same_word(word, b"timeout")
        || is_same_word(word, b"try")
        || is_same_word(word, b"hold")
        || is_same_word(word, b"send-if-pwd")
}

fn is_for_files(word: &[u8]) -> bool
    ensures { result ≡ is_for_files word.now }
{
    is_same_word(word, b"pid-file")
        || is_same_word(word, b"exec")
        || is_same_word(word, b"flag")
        || is_same_word(word, b"minfree")
        || is_same_word(word, b"kill-dup-partial-files")
        || is_same_word(word, b"kill-old-partial-files")
}

/// A word of binkd's that sets nothing here.
pub(crate) fn is_passed_over(word: &[u8]) -> bool
    ensures { result ≡ is_passed_over word.now }
{
    is_for_the_log(word) || is_for_calls(word) || is_for_files(word)
}
