//! What holds of all plans: each function here has no work, and its contract is a law.

ghost use Rattle.pcm_format.specs.declared.settings.Settings.{Settings};
ghost use Rattle.pcm_rate.specs.Rates.{IsRatio};
ghost use Rattle.pcm_feeder.specs.Limits.{IsRate};
ghost use Rattle.pcm_plan.specs.Plans.{PlanSeen, plan_play, plan_record, rate_in_plan};
ghost use Rattle.pcm_plan.specs.Fits.{IsPlan, HaveTables, HaveNoVolume};
ghost use Rattle.pcm_plan.specs.Laws.{HoldsOfPlans, PlansNoVolume, RecordsItsBits, KeepsEachOutput, KeepsOutputs, GivesEachAtAnyGain, GivesAllAtAnyGain, GivesTheCount, GivesTargetChannels, GivesInParts};

/// The stages of a client's plan fit each other, and the tables have its filter.
pub fn plans_fit()
    ensures fits { HoldsOfPlans plan_play (λ plan _. IsPlan plan) }
    ensures tables { HoldsOfPlans plan_play (λ plan tables. HaveTables plan.stages tables) }
    ensures record_fits { HoldsOfPlans plan_record (λ plan _. IsPlan plan) }
    ensures record_tables { HoldsOfPlans plan_record (λ plan tables. HaveTables plan.stages tables) }
    ensures record_volume { PlansNoVolume plan_record }
    ensures ratio { (plan : PlanSeen) → IsPlan plan → IsRatio (rate_in_plan plan) }
{}

/// A frame that a plan gives for some frames stays the same when more follow them.
pub fn more_frames_change_no_output()
    ensures one { (plan : PlanSeen) → IsPlan plan → KeepsEachOutput plan }
    ensures several { (plan : PlanSeen) → IsPlan plan → KeepsOutputs plan }
{}

/// What a plan without a volume gives is the same at every gain.
pub fn gain_changes_nothing_without_a_volume()
    ensures one { (plan : PlanSeen) → HaveNoVolume plan.stages → GivesEachAtAnyGain plan }
    ensures several { (plan : PlanSeen) → HaveNoVolume plan.stages → GivesAllAtAnyGain plan }
{}

/// What a client records is within the bits of its format.
pub fn records_have_the_bits_of_the_client()
    ensures { (client : Settings) → IsRate client.rate → RecordsItsBits client }
{}

/// A plan gives as many frames as it is asked for, with the channels of its target, and in parts
/// the same as at once.
pub fn outputs_have_the_channels_of_the_target()
    ensures count { (plan : PlanSeen) → GivesTheCount plan }
    ensures channels { (plan : PlanSeen) → IsPlan plan → GivesTargetChannels plan }
    ensures parts { (plan : PlanSeen) → GivesInParts plan }
{}
