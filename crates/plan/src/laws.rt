// Laws of plans, stated as contracts so that the check asks for their proofs.
ghost use Rattle.plan.specs.Laws.{MapReadsBack, PlanLaid, FollowingUndoesPacking, FollowingByEntity, FollowingCounts};
ghost use Rattle.plan.specs.Laws.{EntitiesSized, FieldsProper, EndsAddUp, PageNumbers, EntitiesNumbered};

// The pages of a plan, read back from the bytes of their blocks, give the objects of the write back.
pub fn pages_follow()
    ensures maps { MapReadsBack }
    ensures objects { FollowingUndoesPacking }
    ensures entities { FollowingByEntity }
    ensures counts { FollowingCounts }
{}

// The blocks of every plan are laid by the rules, and its entities, Data Fields and numbers keep their bounds.
pub fn plans_stand()
    ensures laid { PlanLaid }
    ensures sized { EntitiesSized }
    ensures proper { FieldsProper }
    ensures ends { EndsAddUp }
    ensures pages { PageNumbers }
    ensures entities { EntitiesNumbered }
{}
