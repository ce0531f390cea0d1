//! The sessions of which the examples speak come of texts.
ghost use Rattle.lt_transport_definitions.specs.Samples.{IsReached, over_typedef_t, without_laws, over_related};
ghost use Rattle.lt_transport_definitions.specs.RefusalSamples.{over_boxes, lawless_boxes, over_correspondence, over_few_laws, over_quotient_of_box, over_quotient_of_arr, over_form, over_quotient_of_t, over_lists, over_relator};
ghost use Rattle.lt_transport_definitions.specs.OtherSamples.{relcompp_type, other_relcompp_type, over_relcompp, over_other_rel_fun, over_bare_typedef};

/// Over the laws, a typedef, and two related types.
pub fn small_sessions_are_reached()
    ensures typedef { IsReached over_typedef_t }
    ensures without_laws { IsReached without_laws }
    ensures related { IsReached over_related }
    ensures bare { IsReached over_bare_typedef }
{}

/// Over several quotients' theorems, correspondences, quotients, lifted constants and forms.
pub fn quotient_sessions_are_reached()
    ensures boxes { IsReached over_boxes }
    ensures lawless { IsReached lawless_boxes }
    ensures correspondence { IsReached over_correspondence }
    ensures few_laws { IsReached over_few_laws }
    ensures lifted { IsReached over_quotient_of_box }
    ensures arrays { IsReached over_quotient_of_arr }
    ensures form { IsReached over_form }
    ensures typedef { IsReached over_quotient_of_t }
    ensures relcompp { IsReached (over_relcompp relcompp_type) }
    ensures other_relcompp { IsReached (over_relcompp other_relcompp_type) }
{}

/// Over lists and their relator.
pub fn list_sessions_are_reached()
    ensures lists { IsReached over_lists }
    ensures relator { IsReached over_relator }
    ensures other_rel_fun { IsReached over_other_rel_fun }
{}
