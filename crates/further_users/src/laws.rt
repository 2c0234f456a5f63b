//! What a state with further users is a state of.
ghost use Rattle.further_users.specs.Longer.{LongerStatesKeepTurns, LongerStatesKeepUsers};

use cp_core::one_by_saved;

/// States that a system which is saved as the state of another one with the further users of a boot
/// has each user of that one exactly as he was, and each further one as he was booted, over the
/// volumes and with the files of that one.
pub fn further_users_change_nobody()
    ensures { LongerStatesKeepUsers }
{
    one_by_saved();
}

/// States that a queue of users and a serve queue that are saved as others, but for how many users
/// there may be, are those others: nobody's turn changes.
pub fn further_users_take_no_turn()
    ensures { LongerStatesKeepTurns }
{
    cp_dispatch::one_by_saved();
}
