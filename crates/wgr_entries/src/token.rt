//! Tokens that are added or deleted, with their rights. A digest is the SHA-256 of a token.
ghost use Rattle.std.specs.Prelude.{◌≡◌};
ghost use Rattle.sqlite.specs.State.{HasCleanDisk, Survives};
ghost use Rattle.sqlite.specs.Held.{state};
ghost use Rattle.wgr_entries.specs.OrderSteps.{TokenRowComes, TokenRowGoes};
ghost use Rattle.wgr_entries.specs.Stops.{TokenRowStays, TokenRowStaysOut, TokenStays, TokenStaysOut};
ghost use Rattle.wgr_entries.specs.ThirdVersion.{IsThird, StepsAnyhow};
ghost use Rattle.wgr_tables.specs.Standing.{StepsOn};
ghost use Rattle.wgr_tables.specs.Stops.{FailsBy};
ghost use Rattle.wgr_tables.specs.Writes.{TokenGained, TokenLost};

use crate::reader::{drop_reader, insert_reader};
use sqlite::types::ValueRef;
use sqlite::{Alter, Transaction};
use wgr_columns::number_value;
use wgr_model::Right;
use wgr_sql::{Fault, execute};
use wgr_tables::Writing;

// Adds the row of a token.
fn insert_token_row<S: Alter>(
    tx: &mut Transaction<'_, S>,
    digest: &[u8; 32],
    tenant: u32,
) -> Result<usize, Fault>
    ensures same_reference { tx.new.conn.ghost_name ≡ tx.old.conn.ghost_name }
    ensures step { HasCleanDisk (state S.Store tx.new.conn.now) → StepsOn (TokenRowComes (record { digest = digest.now; tenant = tenant })) (state S.Store tx.old.conn.now) (state S.Store tx.new.conn.now) result }
    ensures keeps { HasCleanDisk (state S.Store tx.new.conn.now) → StepsAnyhow (state S.Store tx.old.conn.now) (state S.Store tx.new.conn.now) result }
    ensures survives { Survives (state S.Store tx.old.conn.now) (state S.Store tx.new.conn.now) (λ _. ⊥) }
    ensures cause { FailsBy (TokenRowStaysOut (record { digest = digest.now; tenant = tenant })) (state S.Store tx.old.conn.now) (state S.Store tx.new.conn.now) result }
{
    execute(
        tx,
        "INSERT INTO token (digest, tenant) VALUES (?1, ?2)",
        &[ValueRef::Blob(digest), number_value(tenant)],
    )
}

// Deletes the row of the token of this digest.
fn drop_token_row<S: Alter>(tx: &mut Transaction<'_, S>, digest: &[u8; 32]) -> Result<usize, Fault>
    ensures same_reference { tx.new.conn.ghost_name ≡ tx.old.conn.ghost_name }
    ensures step { HasCleanDisk (state S.Store tx.new.conn.now) → StepsOn (TokenRowGoes digest.now) (state S.Store tx.old.conn.now) (state S.Store tx.new.conn.now) result }
    ensures keeps { HasCleanDisk (state S.Store tx.new.conn.now) → StepsAnyhow (state S.Store tx.old.conn.now) (state S.Store tx.new.conn.now) result }
    ensures survives { Survives (state S.Store tx.old.conn.now) (state S.Store tx.new.conn.now) (λ _. ⊥) }
    ensures cause { FailsBy (TokenRowStays digest.now) (state S.Store tx.old.conn.now) (state S.Store tx.new.conn.now) result }
{
    execute(
        tx,
        "DELETE FROM token WHERE digest = ?1",
        &[ValueRef::Blob(digest)],
    )
}

/// A new token. A digest that a token has already is a fault of the store.
#[derive(Drop)]
pub struct NewToken<'a> {
    /// Its digest.
    pub digest: &'a [u8; 32],
    /// The id of its tenant.
    pub tenant: u32,
    /// What it allows.
    pub right: Right,
}

impl Writing for NewToken<'_> {
    ghost writes = { λ x t one. IsThird t × (one ≡ TokenGained (record { digest = x.digest.now; tenant = x.tenant }) x.right) };

    ghost stops = { λ x t. IsThird t → TokenStaysOut (record { digest = x.digest.now; tenant = x.tenant }) x.right t };

    fn run<S: Alter>(&self, tx: &mut Transaction<'_, S>) -> Result<usize, Fault> {
        match self.right {
            Right::Full => insert_token_row(tx, self.digest, self.tenant),
            Right::Read => {
                insert_reader(tx, self.digest)?;
                insert_token_row(tx, self.digest, self.tenant)
            }
        }
    }
}

/// A token that is deleted, whatever its right. If no token has the digest, no row changes.
#[derive(Drop)]
pub struct EndedToken<'a> {
    /// Its digest.
    pub digest: &'a [u8; 32],
}

impl Writing for EndedToken<'_> {
    ghost writes = { λ x t one. IsThird t × (one ≡ TokenLost x.digest.now) };

    ghost stops = { λ x t. IsThird t → TokenStays x.digest.now t };

    fn run<S: Alter>(&self, tx: &mut Transaction<'_, S>) -> Result<usize, Fault> {
        drop_reader(tx, self.digest)?;
        drop_token_row(tx, self.digest)
    }
}
