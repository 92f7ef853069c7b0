//! The laws of the machine, each stated in a file of specs/.

ghost use Rattle.rubis_pool_core.specs.Machine.{EventsMoveThePosted};
ghost use Rattle.rubis_pool_core.specs.Batches.{EveryScheduleFoldsTheBatch, EveryScheduleAccounts, StepsAccount};
ghost use Rattle.rubis_pool_core.specs.Teams.{EveryRunOfATeamIsASchedule, EveryTeamFoldsTheBatch, EveryTeamIsScheduled, FollowingFoldsTheShare};
ghost use Rattle.rubis_pool_core.specs.Teams.{EveryListOfStepsIsScheduled, EveryRunIsASchedule, PostsFirstAreARun};

/// After every schedule each piece is posted, held by one worker or returned, once, and each shard is the fold of a
/// beginning of its share.
pub fn every_schedule_accounts()
    ensures schedule { EveryScheduleAccounts }
    ensures steps { StepsAccount }
{}

/// Where the pieces are those of shards that hold a log, with the shares of a batch after it: once all are returned, by
/// whatever schedule, the shards at their numbers hold the log with the batch, and no part of a share is left.
pub fn every_schedule_folds_the_batch()
    ensures { EveryScheduleFoldsTheBatch }
{}

/// What a Post puts last in the posted list, and a Take takes from its front; nothing else changes it. The running board
/// changes by the same moves, and moves fix the list: so after the same posts and takes both hold the same.
pub fn events_move_the_posted()
    ensures { EventsMoveThePosted }
{}

/// For each list of steps that a board allows, posts and takes by workers, there is a list of what the machine does, with
/// these steps in this order, after each prefix of which the machine has posted what is on the board. In it each worker folds
/// its piece to the end and gives it back before it takes another. That holds not only of one such list: wherever the workers
/// do their own work between the steps, each in its turn, the machine can do the same, and each Take takes the piece that
/// its worker took off the board. Where all posts come first, its state is that of a run.
pub fn every_list_of_steps_is_scheduled()
    ensures steps { EveryListOfStepsIsScheduled }
    ensures runs { EveryRunIsASchedule }
    ensures posts_first { PostsFirstAreARun }
{}

/// The same of a team whose workers read the parts of a batch from its messages, as those of a site do, whether their threads are started for
/// the batch or are helpers of a run, each with a part of the board. A shard on its board carries no
/// parts, and stands for the share of the batch that is the shard's: the machine that is given the shares takes the same pieces in the
/// same order, each by the same worker. What a worker makes of a shard is what the machine's Applies make of it, as far as the worker
/// came. Once all are returned, by whatever schedule, the shards hold the log with the batch.
pub fn every_team_is_scheduled()
    ensures steps { EveryTeamIsScheduled }
    ensures runs { EveryRunOfATeamIsASchedule }
    ensures shares { FollowingFoldsTheShare }
    ensures batch { EveryTeamFoldsTheBatch }
{}
