//! What follows from the definition of a request. Each function does nothing: its contract is the law.
ghost use Rattle.wgr_request.specs.Adopting.{AdoptionsHaveNoSecrets};
ghost use Rattle.wgr_request.specs.Laws.{BeginningsAsk, OneOutcome, OnePathListsNetworks, OneRequest, PathsMakeCommands, SecretsAreUnasked, TokensAreKept};

/// Bytes are one request at most, and a body, a dump or an address has one outcome at most.
pub fn requests_are_unique()
    ensures request { OneRequest }
    ensures outcome { OneOutcome }
{}

/// A beginning of a reader's bytes that has the answer of all of them asks what they ask.
pub fn beginnings_ask()
    ensures { BeginningsAsk }
{}

/// What is asked of a network is a command of the path, with the digest of the token and the name that
/// is in the path; the list of networks has a path of its own.
pub fn paths_make_commands()
    ensures commands { PathsMakeCommands }
    ensures networks { OnePathListsNetworks }
{}

/// Whatever a message asks, and whatever refuses it, the digest is that of its token.
pub fn tokens_are_kept()
    ensures { TokensAreKept }
{}

/// No private and no preshared key of a dump is part of the command that adopts it.
pub fn adoptions_have_no_secrets()
    ensures { AdoptionsHaveNoSecrets }
{}

/// No private and no preshared key of a dump is part of what a message asks that carries it.
pub fn secrets_are_unasked()
    ensures { SecretsAreUnasked }
{}
