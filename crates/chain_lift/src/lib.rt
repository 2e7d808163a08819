//! Lifts of classes of a p-group to chain maps of its minimal resolution, and the products of classes by
//! lifts; maps along the embeddings of elementary abelian subgroups, and the restrictions of classes by them.
#![tactic(auto)]

mod embedding;
mod embedding_laws;
mod embedding_maps;
mod level;
mod lift;
mod maps;
mod products;

pub use embedding::EmbedMap;
pub use embedding_laws::{
    elementary_is_one, elementary_table, embedding_is_homomorphism, embedding_is_product,
    embedding_maps_law,
};
pub use lift::Lift;
