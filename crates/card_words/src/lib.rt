// An index on a card, where it stands in the image's bytes: its words by place.
#![tactic(auto)]

pub mod places;
